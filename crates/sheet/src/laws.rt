//! Interleaving and deinterleaving, one after the other: nothing is lost, whatever the elements are.

ghost use Rattle.std.specs.Prelude.{◌≡◌, ℕ, ◌*◌, List, length};
ghost use Rattle.sheet.specs.Order.{interleaved, deinterleaved, Columnwise};
ghost use Rattle.sheet.specs.Calls.{Same, Interleaved, Deinterleaved, held};

use crate::table::Sheet;
use refusal::Refusal;

// Two laws and no twins: what each promises to leave as it was differs.

/// Interleaves the table into `out` and deinterleaves it again: the table stays as it was.
pub fn there_and_back<T: Copy>(sheet: &mut Sheet<T>, out: &mut [T]) -> Result<(), Refusal>
    ensures table { held sheet.new ≡ held sheet.old }
    ensures told { Interleaved sheet.old out.old result out.new }
    ensures same { Same sheet.old sheet.new }
{
    sheet.interleave(out)?;
    sheet.deinterleave(out)
}

/// Deinterleaves `slice` into the table and interleaves it again: the slice stays as it was.
pub fn back_and_there<T: Copy>(sheet: &mut Sheet<T>, slice: &mut [T]) -> Result<(), Refusal>
    ensures slice { slice.new ≡ slice.old }
    ensures told { Deinterleaved sheet.old slice.old result sheet.new }
    ensures same { Same sheet.old sheet.new }
{
    sheet.deinterleave(slice)?;
    sheet.interleave(slice)
}

/// The two orders, for every table: which element lies where, and the way back from each.
#[tactic(auto, using(crate::proofs::Places::orders))]
pub fn orders_agree<T: Copy>()
    ensures { (rows columns : ℕ) (xs : List T) → length xs ≡ rows * columns → Columnwise rows columns xs (interleaved rows columns xs) × Columnwise columns rows xs (deinterleaved rows columns xs) × (deinterleaved rows columns (interleaved rows columns xs) ≡ xs) × (interleaved rows columns (deinterleaved rows columns xs) ≡ xs) }
{}
