//! What makes a kind of layer: the copies of the points below.

ghost use Rattle.std.specs.Prelude.{◌≡◌, ◌<◌, ◌≤◌, List, length, map, slice_index_or};
ghost use Rattle.rings.specs.Copies.{bits, nothing};
ghost use Rattle.rings.specs.Fair.{Fair};
ghost use Rattle.rings.specs.declared.count.Count.{Count};
ghost use Rattle.rings.specs.declared.copied.Copied.{Copied};

use crate::copied::Copied;
use crate::count::Count;

/// A kind of layer: for each number of rings, the copies that it makes of the points below.
pub trait Kind {
    ghost copies: { Count → List Copied };

    /// What the coordinates are multiplied by in each copy, in 1024ths.
    fn scales(count: Count) -> &'static [u32]
        ensures each { result.now ≡ map (λ t. t.scale) (copies count) }
        ensures few { length result.now ≤ 7 };

    /// The copy of an index, from 0.
    fn copy(count: Count, index: usize) -> Copied
        requires { index < length (copies count) }
        ensures { result ≡ slice_index_or (copies count) index nothing };

    ghost fair: { (count : Count) → Fair (bits count) (copies count) };
}
