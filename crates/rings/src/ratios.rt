//! The layer of ratios: the points below at several ratios to the symbol before, the exponent in Gray code at the end of the label.

ghost use Rattle.rings.specs.Copies.{ratio_copies};
ghost use Rattle.rings.specs.KindLaws.{ratios_fair};

use crate::copied::Copied;
use crate::count::Count;
use crate::kind::Kind;
use crate::layer::Layer;
use constellation::gray;

/// The points below at the ratios of 2 or 4 rings to one another: 3 or 7 copies.
#[derive(Clone, Copy)]
pub struct AtRatios;

/// A constellation at the ratios of 2 or 4 rings to one another.
pub type Ratios<C> = Layer<C, AtRatios>;

impl Kind for AtRatios {
    ghost copies = { ratio_copies };

    ghost fair = { ratios_fair };

    fn scales(count: Count) -> &'static [u32] {
        match count {
            Count::Two => &[512, 1024, 2048],
            Count::Four => &[373, 522, 731, 1024, 1434, 2007, 2810],
        }
    }

    // The exponents run from 1 - n to n - 1 for n rings. The code is that of the exponent modulo n.
    fn copy(count: Count, index: usize) -> Copied {
        let scale = AtRatios::scales(count)[index];
        Copied {
            scale,
            code: gray((index as u8 + 1) % count.number()),
            added: scale * scale,
        }
    }
}
