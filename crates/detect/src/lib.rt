//! Soft detection of one symbol: extrinsic values from what its record keeps, by a single pass over the quadrant points.

#![tactic(auto)]

pub mod chart;
mod halves;
mod pass;
mod received;
mod sign;
mod submetric;
mod terms;
mod tops;
pub mod value;
mod weights;

pub use crate::chart::Chart;
pub use crate::value::extrinsic_values;
