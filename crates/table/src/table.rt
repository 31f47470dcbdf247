//! The table and what always holds of it.

ghost use Rattle.std.specs.Prelude.{◌≡◌, ◌≤◌, length};
ghost use Rattle.std.specs.List.{prefix_len};
ghost use Rattle.arrayvec.specs.ArrayVec.{array_vec_len};
ghost use Rattle.protocol.specs.Verdicts.{inside};
ghost use Rattle.observation.specs.Sizes.{measured as fits};

use arrayvec::ArrayVec;
use observation::{Record, Shift};

/// The symbols, and their a priori values, m to a symbol. A rule of the project: the values lie in one flat array in the order
/// of a sheet, so that answering and telling are one copy each.
/// `given` turns were given out, and `out` says whether the last of them still is. Both stand here and not in a type of turns:
/// a turn is known by the burst's number too, which that type would have to hold once more.
/// An array vector keeps its bound to itself, so `few` says it to the proofs.
#[derive(Drop)]
pub struct Table {
    pub records: ArrayVec<Record, 128>,
    pub priors: [i16; 1024],
    pub number: u32,
    pub shift: Shift,
    pub given: u32,
    pub out: bool,
    ghost few: { array_vec_len records ≤ 128 },
    ghost wide: { length priors ≡ 1024 },
    ghost ranged: { prefix_len inside priors ≡ 1024 },
    ghost sized: { prefix_len fits records.items ≡ array_vec_len records },
}
