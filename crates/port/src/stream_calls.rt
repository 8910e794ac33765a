// The calls on the counted streams; their counts are masked modulo 2^N.
ghost use Rattle.std.specs.Prelude.{◌≡◌, ◌%◌, ◌^◌, ◌<◌, ◌≤◌};
ghost use Rattle.port.specs.Port.{corrected, counted, lost_of, mark_sent, one_more_got, one_more_lost, one_more_sent};
ghost use Rattle.port.specs.View.{inflow_of, outflow_of};

use super::{Inflow, Modulus, Outflow};
use std::mem;

impl Modulus {
    // A count modulo 2^N.
    #[tactic(auto, using(crate::proofs::Masks::shl, std::proofs::lemmas::Nat::and_mask))]
    fn masked(self, count: u16) -> u16
        ensures { result ≡ count % 2 ^ self.n }
    {
        count & ((1 << self.n) - 1)
    }

    // One more.
    #[tactic(auto, using(crate::proofs::Masks::wrapped))]
    fn counted(self, count: u16) -> u16
        ensures { result ≡ counted self.n count }
    {
        self.masked(count.wrapping_add(1))
    }

    // How many of a stream a mark finds lost.
    #[tactic(auto, using(crate::proofs::Masks::shl))]
    pub(crate) fn lost_of(self, got: u16) -> u16
        ensures { result ≡ lost_of self.n got }
    {
        self.masked((1u16 << self.n).saturating_sub(got))
    }
}

impl Inflow {
    pub(crate) fn miss(&mut self)
        ensures { inflow_of self.new ≡ one_more_lost (inflow_of self.old) }
    {
        self.lost = self.lost.saturating_add(1);
    }

    pub(crate) fn get(&mut self, modulus: Modulus)
        ensures { inflow_of self.new ≡ one_more_got modulus.n (inflow_of self.old) }
    {
        self.got = modulus.counted(self.got);
    }

    // Its mark has arrived, and some were made good.
    pub(crate) fn correct(&mut self, good: u8)
        ensures { inflow_of self.new ≡ corrected (inflow_of self.old) good }
    {
        self.got = 0;
        self.good = self.good.saturating_add(u32::from(good));
    }
}

impl Outflow {
    pub(crate) fn send(&mut self, modulus: Modulus)
        ensures { outflow_of self.new ≡ one_more_sent modulus.n (outflow_of self.old) }
    {
        self.sent = modulus.counted(self.sent);
        self.due = self.due || (self.sent == 0 && modulus.n > 0);
    }

    // Its mark is sent, if one is due.
    pub(crate) fn take_mark(&mut self) -> bool
        ensures state { outflow_of self.new ≡ mark_sent (outflow_of self.old) }
        ensures answer { result ≡ self.old.due }
    {
        mem::take(&mut self.due)
    }
}
