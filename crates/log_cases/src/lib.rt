// Cases of written and damaged logs, run beside the proofs.
#![tactic(auto)]

#[cfg(test)]
mod cases;
#[cfg(test)]
mod damage;
#[cfg(test)]
mod listings;
#[cfg(test)]
mod sheets;
