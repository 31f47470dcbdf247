//! A table over lent memory.

/// A table of `rows` and `columns`, stored in `cells` row after row.
///
/// Anyone may make one, over any memory: each call tests the size and the lengths itself.
#[derive(Drop)]
pub struct Sheet<'a, T> {
    pub rows: usize,
    pub columns: usize,
    pub cells: &'a mut [T],
}
