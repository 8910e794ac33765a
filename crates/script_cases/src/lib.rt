// Cases of scripts, run beside the proofs.
#![tactic(auto)]

#[cfg(test)]
mod commands;
#[cfg(test)]
mod played;
#[cfg(test)]
mod refused;
#[cfg(test)]
mod told;
