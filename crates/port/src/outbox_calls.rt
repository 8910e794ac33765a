// The calls on the outbox.
ghost use Rattle.port.specs.Port.{box_frame, box_full, box_injected, box_unsent};
ghost use Rattle.port.specs.View.{outbox_of};
ghost use Rattle.ring.specs.Queue.{head?};
ghost use Rattle.std.specs.Prelude.{◌≡◌, if◌then◌else◌};

use super::Outbox;
use symbol::Frame;

impl Outbox {
    pub(crate) fn is_full(&self) -> bool
        ensures { result ≡ box_full (outbox_of self.now) }
    {
        self.frames.len() >= 32
    }

    pub(crate) fn oldest(&self) -> Option<Frame>
        ensures { result ≡ head? (outbox_of self.now).frames }
    {
        self.frames.first()
    }

    // The next frame joins the outbox, unless that is full.
    pub(crate) fn inject(&mut self) -> Option<Frame>
        ensures state { let o = outbox_of self.old in
            outbox_of self.new ≡ (if box_full o then o else box_injected o) }
        ensures answer { let o = outbox_of self.old in
            result ≡ (if box_full o then None else Some (box_frame o)) }
    {
        let number = self.injected.saturating_add(1);
        let frame = Frame { number };
        if !self.frames.push(frame) {
            return None;
        }
        self.injected = number;
        Some(frame)
    }

    // The oldest frame has been sent.
    pub(crate) fn send(&mut self)
        ensures { outbox_of self.new ≡ box_unsent (outbox_of self.old) }
    {
        let _ = self.frames.pop();
    }
}
