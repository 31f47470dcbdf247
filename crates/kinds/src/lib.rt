//! The two kinds of constellation that layers stand on: points on one circle, and points on a square grid.

#![tactic(auto)]

// Each kind is made by its `new`, which is public and stays: a `TryFrom<u32>` beside it would say the same once more.
// The two `new` and the tables of the two kinds are alike in form alone: one over both would take the table that tells them apart.
pub mod psk;
pub mod square;

/// Both kinds have the imaginary sign first.
const IMAGINARY_SIGN: u8 = 1;
