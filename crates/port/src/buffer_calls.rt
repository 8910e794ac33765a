// The calls on the buffers.
ghost use Rattle.std.specs.Prelude.{◌≡◌, ◌==◌, if◌then◌else◌, min, nat_lt, not};
ghost use Rattle.port.specs.Port.{among, answered, emptied, filled, free, is_full, lent_out, owing, returned};
ghost use Rattle.port.specs.View.{buffers_of};
ghost use Rattle.ring.specs.Queue.{head?};

use super::Buffers;
use ring::each::Test;
use symbol::Frame;

// Asks of a number whether it is this one.
#[derive(Clone, Copy)]
struct Is(u32);

impl Test<u32> for Is {
    ghost passes = { λ t x. (x == t.0) };

    fn passes(&self, number: u32) -> bool {
        number == self.0
    }
}

// Asks of a number whether it is another.
#[derive(Clone, Copy)]
struct IsNot(u32);

impl Test<u32> for IsNot {
    ghost passes = { λ t x. not (x == t.0) };

    fn passes(&self, number: u32) -> bool {
        number != self.0
    }
}

impl Buffers {
    fn is_full(&self) -> bool
        ensures { result ≡ is_full (buffers_of self.now) }
    {
        self.held + self.owed == self.all
    }

    fn free(&self) -> u8
        ensures { result ≡ free (buffers_of self.now) }
    {
        self.all - (self.held + self.owed)
    }

    pub(crate) fn oldest(&self) -> Option<Frame>
        ensures { result ≡ head? (buffers_of self.now).waiting }
    {
        self.waiting.first()
    }

    // A frame takes a free buffer, if there is one.
    pub(crate) fn fill(&mut self, frame: Frame) -> bool
        ensures state { let b = buffers_of self.old in
            buffers_of self.new ≡ (if is_full b then b else filled b frame) }
        ensures answer { result ≡ not (is_full (buffers_of self.old)) }
    {
        if self.is_full() {
            return false;
        }
        let _ = self.waiting.push(frame);
        self.held += 1;
        true
    }

    // More R_RDYs are owed, as far as there are free buffers; the answer is how many.
    pub(crate) fn owe(&mut self, count: u16) -> u8
        ensures state { let b = buffers_of self.old in buffers_of self.new ≡ owing b (min count (free b)) }
        ensures answer { result ≡ min count (free (buffers_of self.old)) }
    {
        let more = count.min(u16::from(self.free())) as u8;
        self.owed += more;
        more
    }

    // An owed R_RDY is sent, if there is one.
    pub(crate) fn answer(&mut self) -> bool
        ensures state { buffers_of self.new ≡ answered (buffers_of self.old) }
        ensures answer { result ≡ nat_lt 0 self.old.owed }
    {
        if self.owed == 0 {
            return false;
        }
        self.owed -= 1;
        true
    }

    // The oldest frame has gone on: its buffer is free, and an R_RDY owed.
    pub(crate) fn send_on(&mut self)
        ensures { buffers_of self.new ≡
            emptied (buffers_of self.old) (buffers_of self.old).waiting }
    {
        if self.waiting.pop().is_some() {
            self.held -= 1;
            self.owed += 1;
        }
    }

    // The oldest frame is handed out: its buffer stays held.
    pub(crate) fn hand_out(&mut self) -> Option<Frame>
        ensures state { buffers_of self.new ≡
            lent_out (buffers_of self.old) (buffers_of self.old).waiting }
        ensures answer { result ≡ head? (buffers_of self.old).waiting }
    {
        let frame = self.waiting.pop()?;
        let _ = self.out.push(frame.number);
        self.handed = self.handed.saturating_add(1);
        Some(frame)
    }

    pub(crate) fn is_out(&self, number: u32) -> bool
        ensures { result ≡ among number (buffers_of self.now).out }
    {
        self.out.any(&Is(number))
    }

    // The buffer of a frame that was handed out is free again.
    pub(crate) fn release(&mut self, number: u32)
        ensures { buffers_of self.new ≡ returned (buffers_of self.old) number }
    {
        if self.is_out(number) {
            self.out.retain(&IsNot(number));
            self.held -= 1;
            self.owed += 1;
        }
    }
}
