// The arguments of a command: its words are taken one by one, and all numbers are read before any range is judged.
ghost use Rattle.std.specs.Prelude.{◌≡◌, ◌<◌, ◌≤◌};
ghost use Rattle.script.specs.Arguments.{Named, arguments_of, as_number, below, chain_of};
ghost use Rattle.script.specs.Arguments.{frames_of, login_of, lose_of, ok_seen, rest, step_of, taken};
ghost use Rattle.script.specs.Arguments.{taken_number, within};
ghost use Rattle.script.specs.Tokens.{left, seen};

use crate::command::{Command, Keyword, Links};
use crate::fault::{Fault, Place, Refusal};
use crate::token::{Token, Tokens};
use symbol::end::End;

// The largest number.
const LARGEST: u32 = 99_999_999;

// A number of the script, with its place.
#[derive(Clone, Copy, PartialEq, Eq, Debug)]
pub(crate) struct Number {
    value: u32,
    place: Place,
}

impl Number {
    // The value, if it lies from `low` to `high`.
    fn within(self, low: u32, high: u32) -> Result<u32, Fault>
        ensures { result ≡ within low high self }
    {
        if (low..=high).contains(&self.value) {
            return Ok(self.value);
        }
        Err(self.place.fault(Refusal::OutOfRange))
    }

    // The value, if it lies below `limit`. No case of `within`: a limit of 0 leaves no range with a last number.
    fn below(self, limit: u8) -> Result<u8, Fault>
        ensures { result ≡ below limit self }
    {
        match u8::try_from(self.value) {
            Ok(value) if value < limit => Ok(value),
            _ => Err(self.place.fault(Refusal::OutOfRange)),
        }
    }
}

impl<'a> Token<'a> {
    fn number(self) -> Result<Number, Fault>
        ensures { result ≡ as_number (seen self.entry) }
    {
        match self {
            Token::Number(_, value, place) => Ok(Number { value, place }),
            _ => Err(self.place().fault(Refusal::NotNumber)),
        }
    }

    // What a letter names.
    fn named<T: TryFrom<char>>(self) -> Result<T, Fault>
    where
        T::Error: Drop,
        ensures { Named T.try_from_gives (seen self.entry) result }
    {
        let fault = self.place().fault(Refusal::OutOfRange);
        match self {
            Token::Letter(_, letter, _) => T::try_from(letter).map_err(|_| fault),
            _ => Err(fault),
        }
    }
}

// The arguments of a command: the tokens behind its word, and the place of the word.
#[derive(Clone, Copy, PartialEq, Eq, Debug)]
pub(crate) struct Arguments<'a> {
    pub(crate) tokens: Tokens<'a>,
    pub(crate) head: Place,
}

impl<'a> Arguments<'a> {
    // The next argument.
    fn token(&mut self) -> Result<Token<'a>, Fault>
        ensures answer { ok_seen result ≡ taken self.old.head (left self.old.tokens) }
        ensures after { left self.new.tokens ≡ rest (left self.old.tokens) }
        ensures head { self.new.head ≡ self.old.head }
    {
        self.tokens
            .next()
            .ok_or(self.head.fault(Refusal::WordCount))
    }

    // The next argument as a number.
    fn number(&mut self) -> Result<Number, Fault>
        ensures answer { result ≡ taken_number self.old.head (left self.old.tokens) }
        ensures after { left self.new.tokens ≡ rest (left self.old.tokens) }
        ensures head { self.new.head ≡ self.old.head }
    {
        self.token()?.number()
    }

    fn chain(mut self) -> Result<Command, Fault>
        ensures { result ≡ chain_of self.entry.head (left self.entry.tokens) }
    {
        let links = self.number()?;
        // Links are read here alone: a TryFrom for two numbers would be longer by an error and a definition.
        match links.value {
            1 => Ok(Command::Chain(Links::One)),
            3 => Ok(Command::Chain(Links::Three)),
            _ => Err(links.place.fault(Refusal::OutOfRange)),
        }
    }

    fn login(mut self) -> Result<Command, Fault>
        ensures { result ≡ login_of self.entry.head (left self.entry.tokens) }
    {
        let link = self.number()?;
        let west = self.number()?;
        let east = self.number()?;
        let west_n = self.number()?;
        let east_n = self.number()?;
        Ok(Command::Login {
            link: link.value,
            west: west.value,
            east: east.value,
            west_n: west_n.value,
            east_n: east_n.value,
        })
    }

    fn lose(mut self, directions: u8) -> Result<Command, Fault>
        ensures { result ≡ lose_of directions self.entry.head (left self.entry.tokens) }
    {
        let direction = self.number()?;
        let letter = self.token()?;
        let first = self.number()?;
        let count = self.number()?;
        Ok(Command::Lose {
            direction: direction.below(directions)?,
            kind: letter.named()?,
            first: first.within(1, LARGEST)?,
            count: count.within(1, LARGEST)?,
        })
    }

    // An end, and how many frames are injected or collected there.
    fn frames(mut self) -> Result<(End, u32), Fault>
        ensures { result ≡ frames_of self.entry.head (left self.entry.tokens) }
    {
        let letter = self.token()?;
        let count = self.number()?;
        let end = letter.named()?;
        Ok((end, count.within(1, 1000)?))
    }

    fn step(mut self) -> Result<Command, Fault>
        ensures { result ≡ step_of self.entry.head (left self.entry.tokens) }
    {
        let count = self.number()?.within(1, 10_000)?;
        Ok(Command::Step { count })
    }

    // The command of a word with these arguments.
    pub(crate) fn command(self, keyword: Keyword, directions: u8) -> Result<Command, Fault>
        ensures { result ≡
            arguments_of keyword directions self.entry.head (left self.entry.tokens) }
    {
        match keyword {
            Keyword::Chain => self.chain(),
            Keyword::Login => self.login(),
            Keyword::Lose => self.lose(directions),
            Keyword::Inject => self
                .frames()
                .map(|(end, count)| Command::Inject { end, count }),
            Keyword::Collect => self
                .frames()
                .map(|(end, count)| Command::Collect { end, count }),
            Keyword::Step => self.step(),
            Keyword::Drain => Ok(Command::Drain),
            Keyword::Page => Ok(Command::Page),
        }
    }
}
