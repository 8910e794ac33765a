// A delay ring: each item can be taken a fixed number of steps after its put.
ghost use Rattle.channel.specs.Timed.{within};
ghost use Rattle.ring.specs.Contents.{contents};
ghost use Rattle.std.specs.Prelude.{◌≡◌, [], true};

use crate::timed::Timed;
use crate::{BLANK, Channel};
use ring::Ring;
use symbol::Item;

const PLACES: usize = 64;

const LONGEST_DELAY: u16 = 1000;

#[derive(Drop)]
pub struct DelayRing {
    waiting: Ring<Timed, PLACES>,
    delay: u16,
    // No item waits longer than the delay.
    ghost bounded: { within delay (contents waiting) ≡ true },
}

impl DelayRing {
    ghost use Rattle.channel.specs.Delay.{clamped};
    ghost use Rattle.channel.specs.States.{delay_state};

    // An idle ring; a delay outside 1 to 1,000 goes to the nearer end.
    pub fn new(delay: u16) -> Self
        ensures { delay_state result ≡ record { waiting = []; delay = clamped delay } }
    {
        DelayRing {
            waiting: Ring::new(Timed {
                item: BLANK,
                wait: 0,
            }),
            delay: delay.clamp(1, LONGEST_DELAY),
        }
    }
}

impl Channel for DelayRing {
    ghost use Rattle.channel.specs.Delay.{Delayed, delay_ring};
    ghost use Rattle.channel.specs.DelayLaws.{delay_lawful};
    ghost use Rattle.channel.specs.States.{delay_state};

    const LETTER: u8 = b'd';

    ghost LETTER = { 100 };

    ghost Model = { Delayed };

    ghost model = { delay_state };

    ghost calls = { delay_ring };

    ghost lawful = { delay_lawful };

    fn put(&mut self, item: Item) -> bool {
        let wait = self.delay;
        self.waiting.push(Timed { item, wait })
    }

    fn take(&mut self) -> Option<Item> {
        match self.waiting.first() {
            Some(first) if first.wait == 0 => {
                let _ = self.waiting.pop();
                Some(first.item)
            }
            _ => None,
        }
    }

    fn step(&mut self) {
        self.waiting.count_down();
    }

    fn has_space(&self) -> bool {
        self.waiting.len() < PLACES
    }

    fn is_idle(&self) -> bool {
        self.waiting.is_empty()
    }
}
