// A script read command by command, and checked whole.
ghost use Rattle.std.specs.Prelude.{◌≡◌};
ghost use Rattle.script.specs.Judged.{Judged};
ghost use Rattle.script.specs.Laws.{Lined};
ghost use Rattle.script.specs.Script.{Stepped, bytes, commands, first_then, next, next_line, started, state, verdict};
ghost use Rattle.script.specs.Text.{lines};
ghost use Rattle.std.specs.Option.{option_map};

use crate::command::Placed;
use crate::cursor::Cursor;
use crate::fault::{Fault, Place, Refusal};
use crate::line::read_line;
use crate::order::Progress;
use crate::scan::split_run;

// The most bytes of a script.
const SCRIPT: usize = 16_384;

impl<'a> Cursor<'a> {
    // A cursor before the first line.
    pub fn new(script: &'a [u8]) -> Cursor<'a>
        ensures start { state result ≡ started script.now }
        ensures law { Lined script.now (lines script.now) }
    {
        Cursor {
            rest: script,
            done: 0,
            progress: Progress::new(),
        }
    }

    // The bytes of the next line, if there is one.
    fn next_line(&mut self) -> Option<&'a [u8]>
        ensures { (option_map bytes result, state self.new) ≡ next_line (state self.old) }
    {
        if self.rest.is_empty() {
            return None;
        }
        let (line, ended) = split_run(self.rest, |b| b != b'\n');
        self.rest = match ended {
            [] => ended,
            [_, rest @ ..] => rest,
        };
        self.done += 1;
        Some(line)
    }

    // The next command, or the first fault; none at the end.
    pub fn next_command(&mut self) -> Result<Option<Placed>, Fault>
        ensures step { ◌≡◌ {A = Stepped} (result, state self.new) (next (state self.old)) }
        ensures passes { commands (state self.old) ≡
            first_then result (commands (state self.new)) }
    {
        'lines: while let Some(text) = self.next_line() {
            if let Some(read) = read_line(text, self.done, self.progress)? {
                self.progress = read.progress;
                return Ok(Some(read.placed));
            }
        }
        Ok(None)
    }
}

// Whether a script may be played, or its first fault.
pub fn check(script: &[u8]) -> Result<(), Fault>
    ensures answer { result ≡ verdict script.now }
    ensures law { Judged script.now (verdict script.now) }
{
    if script.len() > SCRIPT {
        return Err(Place { line: 0, byte: 0 }.fault(Refusal::TooLong));
    }
    let mut cursor = Cursor::new(script);
    'commands: while cursor.next_command()?.is_some() {}
    Ok(())
}
