//! A burst from a file, and the extrinsic values of the burst that a file holds.

#![tactic(auto)]

mod files;
mod placing;
mod sheets;
mod telling;

pub use files::read_burst;
pub use sheets::demap;
