//! The inner table of a burst while symbols are placed.

#![tactic(auto)]

mod checks;
mod draft;
mod place;

pub use draft::Draft;
