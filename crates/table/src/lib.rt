//! The inner table of a closed burst: a record of each symbol, the standing a priori values, and the turns.

#![tactic(auto)]

mod checks;
mod edits;
mod range;
mod table;
mod turn;

pub use range::in_range;
pub use table::Table;
pub use turn::Turn;
