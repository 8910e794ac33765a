// A chain as pure functions over any bank, and the laws of every run.
#![tactic(auto)]

ghost use Rattle.model.specs.Refusals.{refusal_number};
ghost use Rattle.std.specs.Prelude.{◌≡◌};

pub mod promises;

// Why a call of a chain is refused.
#[derive(Clone, Copy, PartialEq, Eq, Debug)]
pub enum Refusal {
    NoLinks = 1,
    // buffers other than 1 to 32
    BadBuffers = 2,
    // an N above 15
    BadN = 3,
    // the N of the two ends differ
    OtherN = 4,
    LastTick = 5,
    OutboxFull = 6,
    // no frame waits at the end
    NoFrame = 7,
    // that number is not handed out at that end
    NotHandedOut = 8,
    // fewer bytes are left than the call asks for
    SheetFull = 9,
}

// The number that stands for the refusal outside.
impl From<Refusal> for u8 {
    ghost from_gives = { λ refusal number. number ≡ refusal_number refusal };

    fn from(refusal: Refusal) -> u8 {
        refusal as u8
    }
}
