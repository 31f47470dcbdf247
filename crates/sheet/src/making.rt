//! Making a table, and looking at what it holds.

ghost use Rattle.std.specs.Prelude.{◌≡◌};
ghost use Rattle.sheet.specs.Calls.{held};

use crate::table::Sheet;

impl<'a, T: Copy> Sheet<'a, T> {
    /// A table over `cells`: what `cells` holds at the end is what the table then holds.
    pub fn over(rows: usize, columns: usize, cells: &'a mut [T]) -> Self
        ensures shape { (result.rows ≡ rows) × (result.columns ≡ columns) }
        ensures holds { held result ≡ cells.old }
        ensures memory { result.cells.ghost_name ≡ cells.entry.ghost_name }
    {
        Sheet {
            rows,
            columns,
            cells,
        }
    }

    /// What the table holds, row after row.
    pub fn cells(&self) -> &[T]
        ensures { result.now ≡ held self.now }
    {
        self.cells
    }
}
