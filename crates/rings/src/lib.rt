//! Two layers over any constellation: its points on several rings, and at several ratios to the symbol before.

#![tactic(auto)]

mod copied;
mod count;
mod kind;
mod layer;
mod ratios;
mod rings;

pub use crate::layer::Layer;
pub use crate::ratios::{AtRatios, Ratios};
pub use crate::rings::{OnRings, Rings};
