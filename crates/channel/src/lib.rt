// What every channel means, and two kinds of channel.
#![tactic(auto)]

ghost use Rattle.std.specs.Prelude.{◌≡◌, ℕ};
ghost use Rattle.channel.specs.Calls.{Calls, Lawful, handed, idle};

pub mod delay;
pub mod timed;
pub mod wire;

use symbol::{Item, Note, Symbol};

// A channel is known by its items in order, whether the first is ready, and whether it has space.
// `calls` says what each call makes of `model`; `lawful` says what all channels have in common. `model` is a member
// here, and no impl of the library's Model, since generic code speaks of it.
pub trait Channel {
    // The letter of this kind of channel, and what clauses read of it.
    const LETTER: u8;

    ghost LETTER: { ℕ };

    ghost Model: { Type 0 };

    ghost model: { Self → Model };

    ghost calls: { Calls Model };

    // The letter as a call, whose contract tells its number where a constant has none.
    fn kind_letter() -> u8
        ensures { result ≡ LETTER }
    {
        Self::LETTER
    }

    // Puts an item last, and answers whether it was accepted.
    fn put(&mut self, item: Item) -> bool
        ensures state { model self.new ≡ calls.put (model self.old) item }
        ensures answer { result ≡ (calls.known (model self.old)).space };

    // Hands out the first item, if it is ready.
    fn take(&mut self) -> Option<Item>
        ensures state { model self.new ≡ calls.take (model self.old) }
        ensures answer { result ≡ handed (calls.known (model self.old)) };

    // Lets one step of time pass.
    fn step(&mut self)
        ensures { model self.new ≡ calls.step (model self.old) };

    // Whether a put would be accepted.
    fn has_space(&self) -> bool
        ensures { result ≡ (calls.known (model self.now)).space };

    // Whether no item waits.
    fn is_idle(&self) -> bool
        ensures { result ≡ idle (calls.known (model self.now)) };

    ghost lawful: { (c : Model) → Lawful calls c };
}

// What stands at a place that no item uses.
pub(crate) const BLANK: Item = Item {
    symbol: Symbol::RRdy,
    note: Note::Sound,
};
