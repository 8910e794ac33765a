// Scripts that are refused, each with its refusal, line and byte.

use crate::told::{check_all, repeated, told};
use std::test::Fail;

// Length before words.
#[test]
fn lengths(rt: HostRuntime) {
    check_all(
        &rt,
        &[
            (&[b' '; 16_385], 14, 0, 0),
            (&[b'\n'; 16_385], 14, 0, 0),
            (&[b'x'; 16_385], 14, 0, 0),
            (&[b' '; 81], 15, 1, 81),
            (&[b'x'; 81], 15, 1, 81),
            (
                b"chain 1\n                                                                                 \n",
                15,
                2,
                81,
            ),
            (
                b"chain 1\n                                                                             page\n",
                15,
                2,
                81,
            ),
        ],
    );
}

// A first word that is no command; only spaces part words.
#[test]
fn unknown_commands(rt: HostRuntime) {
    check_all(
        &rt,
        &[
            (b"Chain 1\n", 16, 1, 1),
            (b"\tchain 1\n", 16, 1, 1),
            (b"chain\t1\n", 16, 1, 1),
            (b"chain 1\npage\r\n", 16, 2, 1),
            (b"  chain 1\n\n   pages\n", 16, 3, 4),
            (b"chain 1\nbogus\nstep 0\n", 16, 2, 1),
            (b"\0", 16, 1, 1),
            (b" \xFF 1\n", 16, 1, 2),
            (b"chains 1\n", 16, 1, 1),
            (b"chai 1\n", 16, 1, 1),
            (b"1\n", 16, 1, 1),
        ],
    );
}

// The number of words, before any word is looked at.
#[test]
fn word_counts(rt: HostRuntime) {
    check_all(
        &rt,
        &[
            (b"chain\n", 18, 1, 1),
            (b"chain 1 1\n", 18, 1, 1),
            (b"chain 1\nstep\n", 18, 2, 1),
            (b"chain 1\nstep x y\n", 18, 2, 1),
            (b"chain 1\npage 1\n", 18, 2, 1),
            (b"chain 1\ndrain 1\n", 18, 2, 1),
            (b"chain 1\nlogin 0 1 1 0\n", 18, 2, 1),
            (b"chain 1\nlogin 0 1 1 0 0 0\n", 18, 2, 1),
            (b"chain 1\nlose 0 f 1\n", 18, 2, 1),
            (b"chain 1\n  inject w\n", 18, 2, 3),
            (b"chain 1\ncollect w 1 1\n", 18, 2, 1),
        ],
    );
}

// Words that must be numbers.
#[test]
fn no_numbers(rt: HostRuntime) {
    check_all(
        &rt,
        &[
            (b"chain 1\r\n", 17, 1, 7),
            (b"chain 1\nstep +5\n", 17, 2, 6),
            (b"chain 1\nstep -5\n", 17, 2, 6),
            (b"chain 1\nstep 000000001\n", 17, 2, 6),
            (b"chain 1\nstep 100000000\n", 17, 2, 6),
            (b"chain 1\nstep 5a\n", 17, 2, 6),
            (b"chain 1\nstep w\n", 17, 2, 6),
            (b"chain 1\nlose 9 z 0 q\n", 17, 2, 12),
            (b"chain 1\nlose x z y 1\n", 17, 2, 6),
            (b"chain 1\nlose 9 z y 1\n", 17, 2, 10),
            (b"chain 1\ninject z x\n", 17, 2, 10),
            (b"chain 1\nlogin 0 1  1 x y\n", 17, 2, 14),
        ],
    );
}

// Values out of their range, and letters that are none.
#[test]
fn out_of_range(rt: HostRuntime) {
    check_all(
        &rt,
        &[
            (b"chain 2\n", 19, 1, 7),
            (b"chain 0\n", 19, 1, 7),
            (b"chain 4\n", 19, 1, 7),
            (b"chain 1\nstep 12345678\n", 19, 2, 6),
            (b"chain 1\nstep 0\n", 19, 2, 6),
            (b"chain 1\nstep 10001\n", 19, 2, 6),
            (b"chain 1\nlose 9 z 0 1\n", 19, 2, 6),
            (b"chain 1\nlose 1 z 0 1\n", 19, 2, 8),
            (b"chain 1\nlose 1 f 0 0\n", 19, 2, 10),
            (b"chain 1\nlose 1 f 1 0\n", 19, 2, 12),
            (b"chain 1\nlose 2 f 1 1\n", 19, 2, 6),
            (b"chain 3\nlose 6 f 1 1\n", 19, 2, 6),
            (b"chain 3\nlose 256 f 1 1\n", 19, 2, 6),
            (b"chain 1\nlose 0 ff 1 1\n", 19, 2, 8),
            (b"chain 1\nlose 0 F 1 1\n", 19, 2, 8),
            (b"chain 1\nlose 0 1 1 1\n", 19, 2, 8),
            (b"chain 1\ninject z 0\n", 19, 2, 8),
            (b"chain 1\ninject w 0\n", 19, 2, 10),
            (b"chain 1\ninject w 1001\n", 19, 2, 10),
            (b"chain 1\ninject 0 1\n", 19, 2, 8),
            (b"chain 1\ncollect we 1\n", 19, 2, 9),
            (b"chain 1\ncollect e 1001\n", 19, 2, 11),
            // before any order
            (b"lose 6 f 1 1\n", 19, 1, 6),
            (b"step 0\n", 19, 1, 6),
            (b"chain 1\nchain 2\n", 19, 2, 7),
            (b"chain 1\nlogin 9 0 1 0 0\nstep 0\n", 19, 3, 6),
        ],
    );
}

#[test]
fn out_of_order(rt: HostRuntime) {
    check_all(
        &rt,
        &[
            (b"lose 5 f 1 1\n", 20, 1, 1),
            (b"login 0 1 1 0 0\n", 20, 1, 1),
            (b"\n  drain\n", 20, 2, 3),
            (b"page\nchain 1\n", 20, 1, 1),
            (b"chain 1\nchain 3\n", 20, 2, 1),
            (b"chain 1\npage\nlogin 99 0 0 99 98\n", 20, 3, 1),
            (b"chain 1\nstep 1\nlose 0 f 1 1\n", 20, 3, 1),
            (b"chain 1\ncollect w 1\nlose 0 f 1 1\n", 20, 3, 1),
            (b"chain 1\ndrain\nlogin 0 1 1 0 0\n", 20, 3, 1),
            (b"chain 1\npage\nchain 1\n", 20, 3, 1),
            (b"chain 1\ndrain\ninject w 1\n", 20, 3, 1),
            (b"chain 1\ndrain\nstep 1\ninject w 1\n", 20, 4, 1),
            (b"chain 1\ndrain\ndrain\n", 20, 3, 1),
            (b"chain 1\ndrain\npage\ndrain\n", 20, 4, 1),
        ],
    );
}

// The four letters share a direction's sixteen.
#[test]
fn too_many_loses(rt: HostRuntime) -> Result<(), Fail> {
    let head = b"chain 1\n";
    let script = repeated(rt.alloc(), head, b"lose 0 f 1 1\n", 17, b"")?;
    assert_eq!(rt; told(script.as_slice()), Err((21, 18, 1)));
    let script = repeated(rt.alloc(), head, b"lose 0 f 1 1\n", 16, b"  lose 0 c 1 1\n")?;
    assert_eq!(rt; told(script.as_slice()), Err((21, 18, 3)));
    let script = repeated(rt.alloc(), head, b"lose 0 f 1 1\n", 16, b"lose 0 f 0 1\n")?;
    assert_eq!(rt; told(script.as_slice()), Err((19, 18, 10)));
    let script = repeated(
        rt.alloc(),
        head,
        b"lose 0 f 1 1\n",
        16,
        b"page\nlose 0 f 1 1\n",
    )?;
    assert_eq!(rt; told(script.as_slice()), Err((20, 19, 1)));
    Ok(())
}
