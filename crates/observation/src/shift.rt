//! The shift of a burst.

ghost use Rattle.std.specs.Prelude.{◌≡◌, ◌^◌, ◌≤◌, pos, unsigned_abs};

use refusal::{Cause, Refusal};

/// From 0 to 40. S, by which a priori values are multiplied before they meet the metrics, is 2 to this.
#[derive(Clone, Copy)]
pub struct Shift {
    pub exponent: u8,
    pub ghost low: { exponent ≤ 40 },
}

/// Refused above 40.
impl TryFrom<u8> for Shift {
    ghost use Rattle.observation.specs.Shifts.{MakesShift};

    type Error = Refusal;

    ghost try_from_gives = { MakesShift };

    fn try_from(exponent: u8) -> Result<Shift, Refusal> {
        if exponent > 40 {
            return Err(Cause::Shift.at(0));
        }
        Ok(Shift { exponent })
    }
}

impl Shift {
    /// S
    #[tactic(auto, using(crate::proofs::Scales::scaled, crate::proofs::Scales::scaled_small))]
    pub fn scale(self) -> i64
        ensures value { result ≡ pos (2 ^ self.exponent) }
        ensures small { unsigned_abs result ≤ 2 ^ 40 }
    {
        1i64 << self.exponent
    }
}
