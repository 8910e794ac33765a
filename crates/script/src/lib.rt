// The script of the bench: its lines, words and commands, and whether it may be played.
#![tactic(auto)]

mod arguments;
pub mod command;
pub mod cursor;
pub mod fault;
mod line;
pub mod order;
pub mod reading;
mod scan;
pub mod token;
