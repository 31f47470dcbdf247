//! The layer of rings: the points below at several radii, the ring's number in Gray code at the end of the label.

ghost use Rattle.rings.specs.Copies.{ring_copies};
ghost use Rattle.rings.specs.KindLaws.{rings_fair};

use crate::copied::Copied;
use crate::count::Count;
use crate::kind::Kind;
use crate::layer::Layer;
use constellation::gray;

/// The points below on 2 or 4 rings.
#[derive(Clone, Copy)]
pub struct OnRings;

/// A constellation on 2 or 4 rings.
pub type Rings<C> = Layer<C, OnRings>;

impl Kind for OnRings {
    ghost copies = { ring_copies };

    ghost fair = { rings_fair };

    fn scales(count: Count) -> &'static [u32] {
        match count {
            Count::Two => &[648, 1295],
            Count::Four => &[541, 757, 1060, 1484],
        }
    }

    fn copy(count: Count, index: usize) -> Copied {
        Copied {
            scale: OnRings::scales(count)[index],
            code: gray(index as u8),
            added: 0,
        }
    }
}
