// The words of a line as tokens, which borrow their bytes.
ghost use Rattle.std.specs.Prelude.{◌+◌, ◌<◌, ◌^◌, length};

use crate::fault::Place;
use crate::scan::{read_number, split_run};

// A number, a letter or another word: its bytes, what they say, and their place. Contracts read it by `seen`: a Copy
// type's Model must give its fields back, and bytes do not tell where they lie.
#[derive(Clone, Copy, PartialEq, Eq, Debug)]
pub enum Token<'a> {
    Number(&'a [u8], u32, Place),
    Letter(&'a [u8], char, Place),
    Word(&'a [u8], Place),
}

impl<'a> Token<'a> {
    ghost use Rattle.std.specs.Prelude.{◌≡◌};
    ghost use Rattle.script.specs.Tokens.{classified, seen};

    // The token that a word is.
    fn from_word(text: &'a [u8], place: Place) -> Token<'a>
        ensures { seen result ≡ classified text.now place }
    {
        match read_number(text) {
            Some(value) => Token::Number(text, value, place),
            None => match text {
                [b] => Token::Letter(text, char::from(*b), place),
                _ => Token::Word(text, place),
            },
        }
    }

    pub(crate) fn place(self) -> Place
        ensures { result ≡ (seen self.entry).place }
    {
        match self {
            Token::Number(_, _, place) | Token::Letter(_, _, place) | Token::Word(_, place) =>
                place,
        }
    }

    pub(crate) fn text(self) -> &'a [u8]
        ensures { result.now ≡ (seen self.entry).text }
    {
        match self {
            Token::Number(text, _, _) | Token::Letter(text, _, _) | Token::Word(text, _) => text,
        }
    }
}

// The tokens of a line that are still to come: the bytes left, and how many stand before them. Contracts read them by
// `left`: a Copy type's Model must give its fields back, and tokens do not tell the spaces between.
#[derive(Clone, Copy, PartialEq, Eq, Debug)]
pub struct Tokens<'a> {
    rest: &'a [u8],
    at: usize,
    line: usize,
    ghost counted: { at + length rest.now < 2 ^ 64 },
}

impl<'a> Tokens<'a> {
    ghost use Rattle.std.specs.Prelude.{◌≡◌};
    ghost use Rattle.script.specs.Laws.{Parted};
    ghost use Rattle.script.specs.Text.{words};
    ghost use Rattle.script.specs.Tokens.{left, line_tokens};

    pub fn new(text: &'a [u8], line: usize) -> Tokens<'a>
        ensures tokens { left result ≡ line_tokens line text.now }
        ensures law { Parted 1 text.now (words 1 text.now) }
    {
        Tokens {
            rest: text,
            at: 0,
            line,
        }
    }
}

impl<'a> Iterator for Tokens<'a> {
    ghost use Rattle.std.specs.Iterator.{YieldsFirstBy, item_count};
    ghost use Rattle.script.specs.Tokens.{left, seen};

    type Item = Token<'a>;

    ghost next_gives = { YieldsFirstBy seen left };

    ghost remaining = { item_count left };

    // The next token, if one is left.
    fn next(&mut self) -> Option<Token<'a>> {
        let (gap, rest) = split_run(self.rest, |b| b == b' ');
        let (word, rest) = split_run(rest, |b| b != b' ');
        let start = self.at + gap.len();
        self.at = start + word.len();
        self.rest = rest;
        if word.is_empty() {
            return None;
        }
        let place = Place {
            line: self.line,
            byte: start + 1,
        };
        Some(Token::from_word(word, place))
    }
}
