// The two ends of a chain.
ghost use Rattle.symbol.specs.Ends.{EndRead};

use crate::UnknownLetter;

#[derive(Clone, Copy, PartialEq, Eq, Debug)]
pub enum End {
    West,
    East,
}

// The end that has this letter.
impl TryFrom<char> for End {
    type Error = UnknownLetter;

    ghost try_from_gives = { EndRead };

    fn try_from(letter: char) -> Result<Self, UnknownLetter> {
        match letter {
            'w' => Ok(End::West),
            'e' => Ok(End::East),
            _ => Err(UnknownLetter(letter)),
        }
    }
}
