//! The order of a table's elements: row after row, and column after column.

ghost use Rattle.std.specs.Prelude.{◌≡◌, ◌*◌, length};
ghost use Rattle.sheet.specs.Order.{Fit, interleaved, deinterleaved};

/// Copies the table `from`, stored row after row, into `into`, column after column: nothing is lost.
#[tactic(auto, using(crate::proofs::Places::dealing))]
pub(crate) fn turn<T: Copy>(rows: usize, columns: usize, from: &[T], into: &mut [T])
    requires fit { Fit rows columns (length from.now) }
    requires room { length into.old ≡ rows * columns }
    ensures told { into.new ≡ interleaved rows columns from.now }
    ensures back { deinterleaved rows columns into.new ≡ from.now }
{
    // `chunks_exact_mut` was tried: it cuts the columns, but a proof knows nothing of elements that are written through it.
    for c in 0..columns {
        let column = &mut into[c * rows..(c + 1) * rows];
        for (r, cell) in column.iter_mut().enumerate() {
            *cell = from[r * columns + c];
        }
    }
}
