// What a line commands.
ghost use Rattle.std.specs.Prelude.{◌≡◌, ◌≤◌, length};
ghost use Rattle.script.specs.Line.{command_of, ordered, read_line, read_tokens};
ghost use Rattle.script.specs.Tokens.{left, seen};

use crate::arguments::Arguments;
use crate::command::{Command, Keyword, Placed};
use crate::fault::{Fault, Place, Refusal};
use crate::order::Progress;
use crate::token::{Token, Tokens};

// The most bytes of a line.
const LINE: usize = 80;

// A command that may stand where it stands, and the progress after it.
#[derive(Clone, Copy, PartialEq, Eq, Debug)]
pub(crate) struct Read {
    pub(crate) placed: Placed,
    pub(crate) progress: Progress,
}

// The command of a line's first word and the tokens behind it.
fn parse_command(first: Token<'_>, tokens: Tokens<'_>, directions: u8) -> Result<Command, Fault>
    ensures { result ≡ command_of directions (seen first.entry) (left tokens.entry) }
{
    let head = first.place();
    let keyword = Keyword::try_from(first.text()).map_err(|refusal| head.fault(refusal))?;
    if tokens.count() != keyword.arity() {
        return Err(head.fault(Refusal::WordCount));
    }
    Arguments { tokens, head }.command(keyword, directions)
}

// The command, if it may stand here.
fn read_ordered(first: Token<'_>, tokens: Tokens<'_>, progress: Progress) -> Result<Read, Fault>
    ensures { result ≡ ordered progress (seen first.entry) (left tokens.entry) }
{
    let place = first.place();
    let command = parse_command(first, tokens, progress.directions)?;
    let progress = progress
        .after(command)
        .map_err(|refusal| place.fault(refusal))?;
    Ok(Read {
        placed: Placed { command, place },
        progress,
    })
}

fn read_tokens(mut tokens: Tokens<'_>, progress: Progress) -> Result<Option<Read>, Fault>
    ensures { result ≡ read_tokens progress (left tokens.entry) }
{
    let Some(first) = tokens.next() else {
        return Ok(None);
    };
    read_ordered(first, tokens, progress).map(Some)
}

// The command of a line, if it has a word.
pub(crate) fn read_line(text: &[u8], line: usize, progress: Progress) -> Result<Option<Read>, Fault>
    ensures { result ≡ read_line line progress text.now }
{
    if text.len() > LINE {
        return Err(Place {
            line,
            byte: LINE + 1,
        }
        .fault(Refusal::LongLine));
    }
    read_tokens(Tokens::new(text, line), progress)
}
