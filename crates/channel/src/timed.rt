// An item and the steps that it still waits.
ghost use Rattle.channel.specs.Timed.{nearer};

use ring::each::Countdown;
use symbol::Item;

#[derive(Clone, Copy)]
pub struct Timed {
    pub item: Item,
    pub wait: u16,
}

impl Countdown for Timed {
    ghost counted = { nearer };

    fn counted_down(&self) -> Timed {
        Timed {
            wait: self.wait.saturating_sub(1),
            ..*self
        }
    }
}
