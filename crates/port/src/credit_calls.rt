// The calls on the credit.
ghost use Rattle.std.specs.Prelude.{◌≡◌, if◌then◌else◌, min, nat_lt};
ghost use Rattle.port.specs.Port.{given_back, spent};
ghost use Rattle.port.specs.View.{credit_of};

use super::Credit;

impl Credit {
    // One more credit is in use, if one is left.
    pub(crate) fn spend(&mut self) -> bool
        ensures state { let c = credit_of self.old in
            credit_of self.new ≡ (if nat_lt c.used c.limit then spent c else c) }
        ensures answer { result ≡ nat_lt self.old.used self.old.limit }
    {
        if self.used >= self.limit {
            return false;
        }
        self.used += 1;
        true
    }

    // Some credits are back, as far as any are in use; the answer is how many.
    pub(crate) fn give_back(&mut self, count: u16) -> u8
        ensures state { credit_of self.new ≡
            given_back (credit_of self.old) (min count self.old.used) }
        ensures answer { result ≡ min count self.old.used }
    {
        let back = count.min(u16::from(self.used)) as u8;
        self.used -= back;
        back
    }
}
