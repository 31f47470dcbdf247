//! The soft values of a closed burst's symbols.

#![tactic(auto)]

mod detector;
mod posterior;
mod sheets;

pub use detector::Detector;
