// Cases of chains, run beside the proofs.
#![tactic(auto)]

#[cfg(test)]
mod refusals;
#[cfg(test)]
mod runs;
