// How far a script is read.
ghost use Rattle.std.specs.Prelude.{◌+◌, ◌<◌, ◌^◌, length};

use crate::order::Progress;

// The lines of a script that are still to come, how many stand before them, and the progress that their commands made.
// Contracts read it by `state`: a Copy type's Model must give its fields back, and lines do not tell how the last ends.
#[derive(Clone, Copy, PartialEq, Eq, Debug)]
pub struct Cursor<'a> {
    pub(crate) rest: &'a [u8],
    pub(crate) done: usize,
    pub(crate) progress: Progress,
    ghost counted: { done + length rest.now < 2 ^ 64 },
}
