// What the states of a chain share.
ghost use Rattle.std.specs.Prelude.{◌≤◌};

use super::ports::Ports;

pub mod ends;
mod room;
pub mod step;

// A chain of no links has a bank all the same.
// Contracts read it by specs/View.antt: the Value of a Model may not use what a bound knows, as a bank's own model.
pub struct Inner<B> {
    pub(crate) bank: B,
    pub(crate) links: u8,
    pub(crate) tick: u32,
    pub(crate) ports: Ports,
    ghost few: { links ≤ 8 },
    ghost early: { tick ≤ 16777215 },
}
