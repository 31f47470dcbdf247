//! Blanks.

ghost use Rattle.std.specs.Prelude.{◌≡◌, length, replicate};

use crate::element::Element;

/// Makes every element blank.
pub(crate) fn blanks<T: Element>(cells: &mut [T])
    ensures { cells.new ≡ replicate (length cells.old) T.BLANK }
{
    // `fill` was tried: it asks for a clone that cannot fail, and a bound `Copy` does not say so.
    for cell in cells.iter_mut() {
        *cell = T::BLANK;
    }
}
