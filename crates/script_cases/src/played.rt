// Scripts that may be played.

use crate::told::{check_played, repeated, told};
use std::test::Fail;

#[test]
fn without_commands(rt: HostRuntime) {
    check_played(
        &rt,
        &[
            b"",
            b"\n",
            b"\n  \n   \n",
            b"   ",
            &[b' '; 80],
            &[b'\n'; 16_384],
        ],
    );
}

#[test]
fn with_commands(rt: HostRuntime) {
    check_played(
        &rt,
        &[
            b"chain 1\nlogin 0 2 2 1 1\nlose 0 f 1 1\ninject w 3\nstep 6\npage\n",
            b"chain 1\ninject w 1\nstep 2\ncollect e 1\nstep 2\npage\n",
            b"chain 1\n",
            b"chain 3\nlogin 0 2 2 1 1\nlose 5 c 1 1\n",
            b"chain 1\npage",
            b"chain 3\npage\n",
            b"chain 1\nstep 00000001\n",
            b"chain 1\nstep 1 \n",
            b"\n\n   chain   3   \n\n",
            b"chain 00000001\n",
            b"chain 1\ndrain\ncollect w 1\nstep 10000\npage\n",
            b"chain 1\nlogin 99999999 0 00000000 99999999 7\n",
            b"chain 3\nlose 0 r 99999999 1\nlose 3 s 1 99999999\n",
            b"chain 1\ninject e 1000\ncollect w 1000\n",
        ],
    );
}

// Calls that are refused only when the script runs.
#[test]
fn refused_when_run(rt: HostRuntime) {
    check_played(
        &rt,
        &[
            b"chain 1\nlogin 1 1 1 0 0\n",
            b"chain 1\nlogin 256 1 1 0 0\n",
            b"chain 1\nlogin 0 0 1 0 0\n",
            b"chain 1\nlogin 0 257 1 0 0\n",
            b"chain 1\nlogin 0 33 1 16 0\n",
            b"chain 1\nlogin 0 1 1 0 16\n",
            b"chain 1\nlogin 0 1 1 1 2\n",
            b"chain 1\ninject w 33\n",
            b"chain 1\n  inject w 33\n",
            b"chain 1\ncollect e 1\n",
            b"chain 1\ndrain\ncollect w 1\n",
            b"chain 1\nlogin 0 2 2 0 0\ninject w 2\nstep 3\ncollect e 3\n",
            b"chain 1\nstep 10000\nstep 10000\n",
        ],
    );
}

#[test]
fn longest_line(rt: HostRuntime) {
    check_played(
        &rt,
        &[
            b"chain 1\n                                                                            page\n",
            b"chain 1                                                                         \n",
        ],
    );
}

#[test]
fn most_loses(rt: HostRuntime) -> Result<(), Fail> {
    let script = repeated(
        rt.alloc(),
        b"chain 1\n",
        b"lose 0 f 1 1\n",
        16,
        b"lose 1 f 1 1\n",
    )?;
    assert_eq!(rt; told(script.as_slice()), Ok(()));
    let script = repeated(
        rt.alloc(),
        b"chain 3\n",
        b"lose 5 r 1 1\nlose 4 f 1 1\n",
        16,
        b"page\n",
    )?;
    assert_eq!(rt; told(script.as_slice()), Ok(()));
    Ok(())
}

#[test]
fn longest_script(rt: HostRuntime) -> Result<(), Fail> {
    let script = repeated(rt.alloc(), b"chain 1\n", b"page\n", 3_275, b"\n")?;
    assert_eq!(rt; script.len(), 16_384);
    assert_eq!(rt; told(script.as_slice()), Ok(()));
    Ok(())
}
