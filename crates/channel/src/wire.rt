// A wire: each item can be taken at once.
ghost use Rattle.channel.specs.States.{wire_state};
ghost use Rattle.channel.specs.Wire.{wire};
ghost use Rattle.symbol.specs.declared.Item.{Item};
ghost use Rattle.std.specs.Prelude.{◌≡◌, List, []};
ghost use Rattle.channel.specs.WireLaws.{wire_lawful};

use crate::{BLANK, Channel};
use ring::Ring;
use symbol::Item;

const PLACES: usize = 32;

#[derive(Drop)]
pub struct Wire {
    items: Ring<Item, PLACES>,
}

impl Wire {
    // An idle wire.
    pub fn new() -> Self
        ensures { wire_state result ≡ [] }
    {
        Wire {
            items: Ring::new(BLANK),
        }
    }
}

impl Channel for Wire {
    const LETTER: u8 = b'w';

    ghost LETTER = { 119 };

    ghost Model = { List Item };

    ghost model = { wire_state };

    ghost calls = { wire };

    ghost lawful = { wire_lawful };

    fn put(&mut self, item: Item) -> bool {
        self.items.push(item)
    }

    fn take(&mut self) -> Option<Item> {
        self.items.pop()
    }

    fn step(&mut self) {}

    fn has_space(&self) -> bool {
        self.items.len() < PLACES
    }

    fn is_idle(&self) -> bool {
        self.items.is_empty()
    }
}
