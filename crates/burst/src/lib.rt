//! Bursts: symbols are placed into an open burst, and a closed one answers what is asked of it, turn by turn.

#![tactic(auto)]

mod burst;
mod closed;
mod open;
mod shape;

pub use burst::{Burst, OpenBurst};
