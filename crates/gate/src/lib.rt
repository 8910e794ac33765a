// A gate lets one item through at a time, a step after its put, and that step notes every second item lost.
// It has space only when idle. It shows that the laws of a channel allow more than wires and delay rings.
#![tactic(auto)]

ghost use Rattle.gate.specs.Gate.{gate, open_gate};
ghost use Rattle.gate.specs.declared.Gate.{Gate};
ghost use Rattle.std.specs.Prelude.{◌≡◌};
ghost use Rattle.gate.specs.GateLaws.{gate_lawful};

use channel::Channel;
use symbol::Item;

#[derive(Clone, Copy)]
pub enum Passage {
    Free,
    Entered(Item),
    Through(Item),
}

#[derive(Clone, Copy)]
pub struct Gate {
    passage: Passage,
    // Whether the latest item to enter was a second one.
    second: bool,
}

impl Gate {
    // An idle gate.
    pub fn new() -> Self
        ensures { result ≡ open_gate }
    {
        Gate {
            passage: Passage::Free,
            second: true,
        }
    }
}

impl Channel for Gate {
    const LETTER: u8 = b'g';

    ghost LETTER = { 103 };

    ghost Model = { Gate };

    ghost model = { λ g. g };

    ghost calls = { gate };

    ghost lawful = { gate_lawful };

    fn put(&mut self, item: Item) -> bool {
        match self.passage {
            Passage::Free => {
                self.passage = Passage::Entered(item);
                self.second = !self.second;
                true
            }
            _ => false,
        }
    }

    fn take(&mut self) -> Option<Item> {
        match self.passage {
            Passage::Through(item) => {
                self.passage = Passage::Free;
                Some(item)
            }
            _ => None,
        }
    }

    fn step(&mut self) {
        if let Passage::Entered(item) = self.passage {
            let item = if self.second { item.noted_lost() } else { item };
            self.passage = Passage::Through(item);
        }
    }

    fn has_space(&self) -> bool {
        self.is_idle()
    }

    fn is_idle(&self) -> bool {
        matches!(self.passage, Passage::Free)
    }
}
