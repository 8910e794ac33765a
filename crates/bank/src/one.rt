// A bank of one channel.
ghost use Rattle.bank.specs.Banks.{one};
ghost use Rattle.bank.specs.States.{one_state};
ghost use Rattle.bank.specs.OneLaws.{one_lawful};

use crate::Bank;
use channel::Channel;
use symbol::Item;

#[derive(Drop)]
pub struct One<C> {
    pub channel: C,
}

impl<C: Channel> Bank for One<C> {
    ghost Model = { C.Channel.Model };

    ghost model = { one_state C.Channel.model };

    ghost calls = { one C.Channel.LETTER C.Channel.calls };

    ghost lawful = { λ c. one_lawful C.Channel.LETTER C.Channel.calls c (C.Channel.lawful c) };

    fn count(&self) -> u8 {
        1
    }

    fn letter(&self, number: u8) -> u8 {
        if number == 0 { C::kind_letter() } else { b'-' }
    }

    fn put(&mut self, number: u8, item: Item) -> bool {
        number == 0 && self.channel.put(item)
    }

    fn take(&mut self, number: u8) -> Option<Item> {
        if number == 0 {
            self.channel.take()
        } else {
            None
        }
    }

    fn step(&mut self) {
        self.channel.step();
    }

    fn has_space(&self, number: u8) -> bool {
        number == 0 && self.channel.has_space()
    }

    fn is_idle(&self, number: u8) -> bool {
        number != 0 || self.channel.is_idle()
    }
}
