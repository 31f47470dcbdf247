//! A burst while symbols are placed, and once it is closed: two types, so that nothing is placed into a closed burst.
//!
//! Neither has a model, though most clauses say `closed_kept (C.meaning b.c) b.table`: the clauses of crates above name the constellation
//! and the table apart, and a model's value would hide both.

use draft::Draft;
use table::Table;

/// A burst over the constellation `c` while symbols are placed.
#[derive(Drop)]
pub struct OpenBurst<C> {
    pub(crate) c: C,
    pub(crate) draft: Draft,
}

/// A closed burst over the constellation `c`.
#[derive(Drop)]
pub struct Burst<C> {
    pub(crate) c: C,
    pub(crate) table: Table,
}
