// A bank holds channels under numbers from 0.
#![tactic(auto)]

ghost use Rattle.bank.specs.Bank.{BankCalls, LawfulBank, count, letter_at};
ghost use Rattle.channel.specs.Calls.{handed, idle};
ghost use Rattle.std.specs.Prelude.{◌≡◌};

pub mod one;
pub mod pair;

use symbol::Item;

// A call at a channel's number is that channel's own call; at any other number put refuses, take says none,
// there is no space, idle is yes and the letter is a hyphen. `lawful` says what all banks have in common.
// `model` is a member here, and no impl of the library's Model, since generic code speaks of it.
pub trait Bank {
    ghost Model: { Type 0 };

    ghost model: { Self → Model };

    ghost calls: { BankCalls Model };

    // The channels in it.
    fn count(&self) -> u8
        ensures { result ≡ count calls (model self.now) };

    // The letter of the channel's kind.
    fn letter(&self, number: u8) -> u8
        ensures { result ≡ letter_at calls (model self.now) number };

    fn put(&mut self, number: u8, item: Item) -> bool
        ensures state { model self.new ≡ calls.put (model self.old) number item }
        ensures answer { result ≡ (calls.known (model self.old) number).space };

    fn take(&mut self, number: u8) -> Option<Item>
        ensures state { model self.new ≡ calls.take (model self.old) number }
        ensures answer { result ≡ handed (calls.known (model self.old) number) };

    // A step of every channel.
    fn step(&mut self)
        ensures { model self.new ≡ calls.step (model self.old) };

    fn has_space(&self, number: u8) -> bool
        ensures { result ≡ (calls.known (model self.now) number).space };

    fn is_idle(&self, number: u8) -> bool
        ensures { result ≡ idle (calls.known (model self.now) number) };

    ghost lawful: { (b : Model) → LawfulBank calls b };
}
