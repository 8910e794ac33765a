// A chain of links over any bank: first cabled, then running, then draining.
#![tactic(auto)]

pub mod cabling;
pub mod inner;
pub mod login;
pub mod moving;
mod numbers;
pub mod ports;
pub mod running;
pub mod states;
pub mod token;
pub mod write;
