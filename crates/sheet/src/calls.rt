//! What a table does. Each call tests the table's size first, then the table's own length, then that of the other slice.

ghost use Rattle.sheet.specs.Calls.{Same, Interleaved, Deinterleaved, Wiped, Paged};

use crate::blank::blanks;
use crate::element::Element;
use crate::order::turn;
use crate::paper::bytes;
use crate::table::Sheet;
use refusal::{Refusal, check_length};

impl<'a, T: Copy> Sheet<'a, T> {
    /// Deals the table into `out`, column after column: a block interleaver.
    pub fn interleave(&self, out: &mut [T]) -> Result<(), Refusal>
        ensures { Interleaved self.now out.old result out.new }
    {
        self.fit()?;
        check_length(out.len(), self.cells.len())?;
        turn(self.rows, self.columns, self.cells, out);
        Ok(())
    }

    /// Gathers the table from `from`, which holds it column after column: the inverse of `interleave`.
    pub fn deinterleave(&mut self, from: &[T]) -> Result<(), Refusal>
        ensures told { Deinterleaved self.old from.now result self.new }
        ensures same { Same self.old self.new }
    {
        self.fit()?;
        check_length(from.len(), self.cells.len())?;
        turn(self.columns, self.rows, from, self.cells);
        Ok(())
    }
}

impl<'a, T: Element> Sheet<'a, T> {
    /// Makes every element blank.
    pub fn wipe(&mut self) -> Result<(), Refusal>
        ensures told { Wiped T.BLANK self.old result self.new }
        ensures same { Same self.old self.new }
    {
        self.fit()?;
        blanks(self.cells);
        Ok(())
    }

    /// Writes the bytes of the elements into `out`, row after row, the high byte of each first.
    pub fn page(&self, out: &mut [u8]) -> Result<(), Refusal>
        ensures { Paged T.WIDTH T.coded T.decoded self.now out.old result out.new }
    {
        self.fit()?;
        check_length(out.len(), self.cells.len() * T::WIDTH)?;
        bytes(self.cells, out)
    }
}
