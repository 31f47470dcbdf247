//! The table and what always holds of it.

ghost use Rattle.std.specs.Prelude.{◌≡◌, ◌≤◌};
ghost use Rattle.std.specs.List.{prefix_len};
ghost use Rattle.std.specs.Option.{ForSome};
ghost use Rattle.arrayvec.specs.ArrayVec.{array_vec_len};
ghost use Rattle.protocol.specs.Placings.{fine};
ghost use Rattle.observation.specs.Sizes.{measured};

use arrayvec::ArrayVec;
use observation::{Record, Sample, Shift};

/// The placed symbols, and the received vector that the next differential symbol refers to, once there is one.
/// An array vector keeps its bound to itself, so `few` and `held` say it to the proofs.
// A closed burst's table takes the records, the number and the shift over: a struct of the three, which both would hold, would be
// one more name in every clause on them.
#[derive(Drop)]
pub struct Draft {
    pub records: ArrayVec<Record, 128>,
    pub number: u32,
    pub shift: Shift,
    pub reference: Option<ArrayVec<Sample, 4>>,
    ghost few: { array_vec_len records ≤ 128 },
    ghost sized: { prefix_len measured records.items ≡ array_vec_len records },
    ghost tuned: { ForSome reference (λ y. prefix_len fine y.items ≡ array_vec_len y) },
    ghost held: { ForSome reference (λ y. (1 ≤ array_vec_len y) × (array_vec_len y ≤ 4)) },
}
