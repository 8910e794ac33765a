// What a page shows of a port.
ghost use Rattle.port.specs.Figures.{figures_of};
ghost use Rattle.port.specs.View.{view};
ghost use Rattle.std.specs.Prelude.{◌≡◌};

use super::Port;

// The totals count what the port itself took, and what was injected and handed out there.
#[derive(Clone, Copy, PartialEq, Eq, Debug)]
pub struct Figures {
    pub limit: u8,
    pub in_use: u8,
    pub held: u8,
    pub owed: u8,
    pub frames_lost: u32,
    pub frames_good: u32,
    pub rrdys_lost: u32,
    pub rrdys_good: u32,
    pub injected: u32,
    pub collected: u32,
}

impl Port {
    pub fn figures(&self) -> Figures
        ensures { result ≡ figures_of (view self.now) }
    {
        Figures {
            limit: self.credit.limit,
            in_use: self.credit.used,
            held: self.buffers.held,
            owed: self.buffers.owed,
            frames_lost: self.frames_in.lost,
            frames_good: self.frames_in.good,
            rrdys_lost: self.rrdys_in.lost,
            rrdys_good: self.rrdys_in.good,
            injected: self.outbox.injected,
            collected: self.buffers.handed,
        }
    }
}
