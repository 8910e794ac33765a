// Why a script is refused, and where.
ghost use Rattle.script.specs.Faults.{fault_at, number};
ghost use Rattle.std.specs.Prelude.{◌≡◌};

// A place in a script: line and byte in the line, both from 1.
#[derive(Clone, Copy, PartialEq, Eq, Debug)]
pub struct Place {
    pub line: usize,
    pub byte: usize,
}

// Why a script is refused.
#[derive(Clone, Copy, PartialEq, Eq, Debug)]
pub enum Refusal {
    // the script has over 16,384 bytes
    TooLong = 14,
    // a line has over 80 bytes
    LongLine = 15,
    // the first word is no command
    UnknownCommand = 16,
    // an argument that must be a number is none
    NotNumber = 17,
    // the number of words is not the command's
    WordCount = 18,
    // a value is out of its range, or a letter is none of those allowed
    OutOfRange = 19,
    // the command may not stand here
    OutOfOrder = 20,
    // a 17th lose for a direction
    TooManyLoses = 21,
}

// The number of a refusal.
impl From<Refusal> for u8 {
    ghost from_gives = { λ r n. n ≡ number r };

    fn from(refusal: Refusal) -> u8 {
        refusal as u8
    }
}

impl Place {
    // A fault at this place.
    pub(crate) fn fault(self, refusal: Refusal) -> Fault
        ensures { result ≡ fault_at refusal self }
    {
        Fault {
            refusal,
            place: self,
        }
    }
}

// A refusal, with the place of what is at fault. A script that is too long has the place 0, 0.
#[derive(Clone, Copy, PartialEq, Eq, Debug)]
pub struct Fault {
    pub refusal: Refusal,
    pub place: Place,
}
