//! A table of rows and columns over memory that is lent to it: wiped, interleaved, deinterleaved and paged.

#![tactic(auto)]

mod blank;
mod calls;
mod element;
mod laws;
mod length;
mod making;
mod order;
mod paper;
mod table;

pub use element::Element;
pub use laws::{back_and_there, orders_agree, there_and_back};
pub use table::Sheet;
