// Scripted loss over any channel: the puts that a script names are noted lost.
#![tactic(auto)]

ghost use Rattle.loss.specs.Loss.{Lossy, lossy, started};
ghost use Rattle.loss.specs.States.{lossy_state, script_state};
ghost use Rattle.std.specs.Prelude.{◌≡◌};
ghost use Rattle.loss.specs.LossLaws.{loss_lawful};

pub mod counts;
pub mod script;

use channel::Channel;
use counts::PutCounts;
use script::LossScript;
use symbol::Item;

#[derive(Drop)]
pub struct ScriptedLoss<C> {
    pub below: C,
    script: LossScript,
    counts: PutCounts,
}

impl<C: Channel> ScriptedLoss<C> {
    // A layer that has counted no put yet.
    pub fn new(below: C, script: LossScript) -> Self
        ensures { lossy_state C.Channel.model result ≡ started (C.Channel.model below) (script_state script) }
    {
        ScriptedLoss {
            below,
            script,
            counts: PutCounts::new(),
        }
    }
}

impl<C: Channel> Channel for ScriptedLoss<C> {
    const LETTER: u8 = C::LETTER;

    ghost LETTER = { C.Channel.LETTER };

    ghost Model = { Lossy C.Channel.Model };

    ghost model = { lossy_state C.Channel.model };

    ghost calls = { lossy C.Channel.calls };

    ghost lawful = { λ c. loss_lawful C.Channel.calls c (C.Channel.lawful c.below) };

    fn put(&mut self, item: Item) -> bool {
        let kind = item.symbol.kind();
        let given = if self.script.names(kind, self.counts.next(kind)) {
            item.noted_lost()
        } else {
            item
        };
        let accepted = self.below.put(given);
        if accepted {
            self.counts.count(kind);
        }
        accepted
    }

    fn take(&mut self) -> Option<Item> {
        self.below.take()
    }

    fn step(&mut self) {
        self.below.step();
    }

    fn has_space(&self) -> bool {
        self.below.has_space()
    }

    fn is_idle(&self) -> bool {
        self.below.is_idle()
    }
}
