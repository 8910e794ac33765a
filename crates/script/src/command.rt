// The commands of a script.
ghost use Rattle.script.specs.Commands.{arity, directions_of, keyword_of};
ghost use Rattle.script.specs.declared.fault.Refusal.TheVariants.{UnknownCommand};
ghost use Rattle.std.specs.Option.{ok_or};
ghost use Rattle.std.specs.Prelude.{◌≡◌};

use crate::fault::{Place, Refusal};
use symbol::SymbolKind;
use symbol::end::End;

// The links that a chain can have.
#[derive(Clone, Copy, PartialEq, Eq, Debug)]
pub enum Links {
    One,
    Three,
}

// Login and lose have their numbers here, and not as types of the chain and of losses: scripts are read below those.
#[derive(Clone, Copy, PartialEq, Eq, Debug)]
pub enum Command {
    Chain(Links),
    Login {
        link: u32,
        west: u32,
        east: u32,
        west_n: u32,
        east_n: u32,
    },
    Lose {
        direction: u8,
        kind: SymbolKind,
        first: u32,
        count: u32,
    },
    Inject {
        end: End,
        count: u32,
    },
    Collect {
        end: End,
        count: u32,
    },
    Step {
        count: u32,
    },
    Drain,
    Page,
}

// A command, with the place of its first word.
#[derive(Clone, Copy, PartialEq, Eq, Debug)]
pub struct Placed {
    pub command: Command,
    pub place: Place,
}

// The word that a command begins with.
#[derive(Clone, Copy, PartialEq, Eq, Debug)]
pub(crate) enum Keyword {
    Chain,
    Login,
    Lose,
    Inject,
    Collect,
    Step,
    Drain,
    Page,
}

impl Links {
    // Each link has two.
    pub fn directions(self) -> u8
        ensures { result ≡ directions_of self }
    {
        match self {
            Links::One => 2,
            Links::Three => 6,
        }
    }
}

// The keyword that a word is, or the refusal of a word that is none.
impl TryFrom<&[u8]> for Keyword {
    type Error = Refusal;

    ghost try_from_gives = { λ text r. r ≡ ok_or (keyword_of text.now) UnknownCommand };

    fn try_from(text: &[u8]) -> Result<Self, Refusal> {
        match text {
            b"chain" => Ok(Keyword::Chain),
            b"login" => Ok(Keyword::Login),
            b"lose" => Ok(Keyword::Lose),
            b"inject" => Ok(Keyword::Inject),
            b"collect" => Ok(Keyword::Collect),
            b"step" => Ok(Keyword::Step),
            b"drain" => Ok(Keyword::Drain),
            b"page" => Ok(Keyword::Page),
            _ => Err(Refusal::UnknownCommand),
        }
    }
}

impl Keyword {
    // How many words follow it.
    pub(crate) fn arity(self) -> usize
        ensures { result ≡ arity self }
    {
        match self {
            Keyword::Chain | Keyword::Step => 1,
            Keyword::Login => 5,
            Keyword::Lose => 4,
            Keyword::Inject | Keyword::Collect => 2,
            Keyword::Drain | Keyword::Page => 0,
        }
    }
}
