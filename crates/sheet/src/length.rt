//! The tests that come before any call.

ghost use Rattle.std.specs.Prelude.{◌≡◌, length};
ghost use Rattle.sheet.specs.Calls.{fitting, held};

use crate::table::Sheet;
use refusal::{Cause, Refusal, check_length};

/// The most rows, and the most columns, of a table.
const LIMIT: usize = 4096;

impl<'a, T> Sheet<'a, T> {
    /// Refuses a table that is too large, and then one that has another number of elements.
    pub(crate) fn fit(&self) -> Result<(), Refusal>
        ensures { result ≡ fitting self.now.rows self.now.columns (length (held self.now)) }
    {
        if self.rows > LIMIT || self.columns > LIMIT {
            return Err(Cause::Length.at(0));
        }
        check_length(self.cells.len(), self.rows * self.columns)
    }
}
