// One port: its credit, its buffers, its counted streams and its outbox, which their types keep within their bounds.
#![tactic(auto)]

ghost use Rattle.std.specs.Prelude.{◌+◌, ◌^◌, ◌<◌, ◌≤◌, length};
ghost use Rattle.ring.specs.Contents.{contents};

pub mod buffer_calls;
pub mod credit_calls;
pub mod ends;
pub mod figures;
pub mod outbox_calls;
pub mod sending;
pub mod stream_calls;
pub mod taking;

use ring::Ring;
use symbol::Frame;

// Contracts read these by specs/View.antt: a ring's view cannot give its places back, as a Copy type's Model must, and
// the others are read beside those that hold rings.

// The credit towards the other end of the link: what is in use never passes the limit.
#[derive(Clone, Copy)]
pub(crate) struct Credit {
    limit: u8,
    used: u8,
    ghost within: { used ≤ limit },
    ghost some: { 1 ≤ limit },
    ghost few: { limit ≤ 32 },
}

// The receive buffers: how many hold a frame, and for how many an R_RDY is owed. Frames wait in order; the numbers of
// those handed out stay until they are released.
#[derive(Clone, Copy)]
pub(crate) struct Buffers {
    all: u8,
    held: u8,
    owed: u8,
    waiting: Ring<Frame, 32>,
    out: Ring<u32, 32>,
    handed: u32,
    ghost within: { held + owed ≤ all },
    ghost some: { 1 ≤ all },
    ghost few: { all ≤ 32 },
    ghost kept: { length (contents waiting) + length (contents out) ≤ held },
}

// The modulus 2^N of every count of a stream; an N of 0 counts nothing, and makes no mark due.
#[derive(Clone, Copy)]
pub(crate) struct Modulus {
    n: u8,
    ghost small: { n ≤ 15 },
}

// A counted stream as its sender keeps it: the count since the last mark, and whether a mark is due.
#[derive(Clone, Copy, Default)]
pub(crate) struct Outflow {
    sent: u16,
    due: bool,
}

// A counted stream as its receiver keeps it: the count since the last mark, and the totals that a page shows.
#[derive(Clone, Copy, Default)]
pub(crate) struct Inflow {
    got: u16,
    lost: u32,
    good: u32,
}

// The frames that were injected at an end and wait to be sent, and how many ever were.
#[derive(Clone, Copy)]
pub(crate) struct Outbox {
    frames: Ring<Frame, 32>,
    injected: u32,
}

#[derive(Clone, Copy)]
pub struct Port {
    modulus: Modulus,
    credit: Credit,
    buffers: Buffers,
    frames_out: Outflow,
    rrdys_out: Outflow,
    frames_in: Inflow,
    rrdys_in: Inflow,
    outbox: Outbox,
    ghost frames_sent: { frames_out.sent < 2 ^ modulus.n },
    ghost rrdys_sent: { rrdys_out.sent < 2 ^ modulus.n },
    ghost frames_got: { frames_in.got < 2 ^ modulus.n },
    ghost rrdys_got: { rrdys_in.got < 2 ^ modulus.n },
}
