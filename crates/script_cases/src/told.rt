// What a check tells of a script: the refusal's number, line and byte, where it may not be played.

use script::reading::check;
use std::alloc::{AllocError, Global};
use std::process::Abort;

pub(crate) fn told(script: &[u8]) -> Result<(), (u8, usize, usize)> {
    check(script).map_err(|fault| (u8::from(fault.refusal), fault.place.line, fault.place.byte))
}

// Each script with what is told of it.
pub(crate) fn check_all(rt: &impl Abort, cases: &[(&[u8], u8, usize, usize)]) {
    for &(script, refusal, line, byte) in cases {
        assert_eq!(rt; told(script), Err((refusal, line, byte)));
    }
}

// Scripts that may be played.
pub(crate) fn check_played(rt: &impl Abort, scripts: &[&[u8]]) {
    for script in scripts {
        assert_eq!(rt; told(script), Ok(()));
    }
}

// A line several times between others.
pub(crate) fn repeated(
    heap: Global,
    before: &[u8],
    line: &[u8],
    times: usize,
    after: &[u8],
) -> Result<Vec<u8>, AllocError> {
    let mut script = Vec::new(heap);
    script.extend_from_slice(before)?;
    for _i in 0..times {
        script.extend_from_slice(line)?;
    }
    script.extend_from_slice(after)?;
    Ok(script)
}
