// What a port sends.
ghost use Rattle.port.specs.Port.{after_send, choice, sent_on, unsent};
ghost use Rattle.port.specs.View.{view};
ghost use Rattle.ring.specs.Queue.{head?};
ghost use Rattle.std.specs.Prelude.{◌≡◌};

use super::Port;
use symbol::{Frame, Mark, Symbol};

impl Port {
    // What the port sends where its channel has space: the first that applies of a due BB_SCs, a due BB_SCr, an owed
    // R_RDY, and `waiting`, the oldest frame that waits for it.
    pub fn send(&mut self, waiting: Option<Frame>) -> Option<Symbol>
        ensures state { view self.new ≡
            after_send (view self.old) (choice (view self.old) waiting) }
        ensures answer { result ≡ choice (view self.old) waiting }
    {
        if self.frames_out.take_mark() {
            return Some(Symbol::Mark(Mark::BbScS));
        }
        if self.rrdys_out.take_mark() {
            return Some(Symbol::Mark(Mark::BbScR));
        }
        if self.buffers.answer() {
            self.rrdys_out.send(self.modulus);
            return Some(Symbol::RRdy);
        }
        let frame = waiting?;
        if !self.credit.spend() {
            return None;
        }
        self.frames_out.send(self.modulus);
        Some(Symbol::Frame(frame))
    }

    // The oldest frame that waits in a buffer.
    pub fn oldest_held(&self) -> Option<Frame>
        ensures { result ≡ head? (view self.now).buffers.waiting }
    {
        self.buffers.oldest()
    }

    // The oldest frame that was held has been sent on by the next port.
    pub fn free_oldest(&mut self)
        ensures { view self.new ≡ sent_on (view self.old) }
    {
        self.buffers.send_on();
    }

    // The oldest frame of the outbox.
    pub fn oldest_injected(&self) -> Option<Frame>
        ensures { result ≡ head? (view self.now).outbox.frames }
    {
        self.outbox.oldest()
    }

    // The oldest frame of the outbox has been sent.
    pub fn drop_oldest(&mut self)
        ensures { view self.new ≡ unsent (view self.old) }
    {
        self.outbox.send();
    }
}
