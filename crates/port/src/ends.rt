// How a port begins, and what an end of a chain does with frames.
ghost use Rattle.port.specs.Port.{among, box_full, handed_out, injected_frame, injects_at, logged_in, released};
ghost use Rattle.port.specs.Port.{some_buffers, some_n};
ghost use Rattle.port.specs.View.{view};
ghost use Rattle.ring.specs.Queue.{head?};
ghost use Rattle.std.specs.Prelude.{◌≡◌};

use super::{Buffers, Credit, Inflow, Modulus, Outbox, Outflow, Port};
use ring::Ring;
use symbol::Frame;

// What stands at a place that no frame uses.
const BLANK: Frame = Frame { number: 0 };

impl Port {
    // A port that has logged in: its own buffers, those of the other end, and N. Numbers that no port has go to the
    // nearer end.
    pub fn new(own: u8, other: u8, n: u8) -> Self
        ensures { view result ≡ logged_in (some_buffers own) (some_buffers other) (some_n n) }
    {
        Port {
            modulus: Modulus { n: n.min(15) },
            credit: Credit {
                limit: other.clamp(1, 32),
                used: 0,
            },
            buffers: Buffers {
                all: own.clamp(1, 32),
                held: 0,
                owed: 0,
                waiting: Ring::new(BLANK),
                out: Ring::new(0),
                handed: 0,
            },
            frames_out: Outflow::default(),
            rrdys_out: Outflow::default(),
            frames_in: Inflow::default(),
            rrdys_in: Inflow::default(),
            outbox: Outbox {
                frames: Ring::new(BLANK),
                injected: 0,
            },
        }
    }

    pub fn is_outbox_full(&self) -> bool
        ensures { result ≡ box_full (view self.now).outbox }
    {
        self.outbox.is_full()
    }

    // The next frame joins the outbox, unless that is full.
    pub fn inject(&mut self) -> Option<Frame>
        ensures state { view self.new ≡ injects_at (view self.old) }
        ensures answer { result ≡ injected_frame (view self.old) }
    {
        self.outbox.inject()
    }

    // The oldest frame that waits in a buffer is handed out.
    pub fn hand_out(&mut self) -> Option<Frame>
        ensures state { view self.new ≡ handed_out (view self.old) }
        ensures answer { result ≡ head? (view self.old).buffers.waiting }
    {
        self.buffers.hand_out()
    }

    // Whether the frame of this number is handed out.
    pub fn is_out(&self, number: u32) -> bool
        ensures { result ≡ among number (view self.now).buffers.out }
    {
        self.buffers.is_out(number)
    }

    // The buffer of a frame that was handed out is free again.
    pub fn release(&mut self, number: u32)
        ensures { view self.new ≡ released (view self.old) number }
    {
        self.buffers.release(number);
    }
}
