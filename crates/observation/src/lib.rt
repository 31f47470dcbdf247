//! What is kept of a symbol: from its received and reference vectors, the few numbers that detection needs.

#![tactic(auto)]

ghost use Rattle.std.specs.Prelude.{◌≡◌, ◌≤◌, [], length};
ghost use Rattle.std.specs.List.{AllByRecursion};
ghost use Rattle.observation.specs.Observed.{Ranged, Measured, held, symbol_of};
ghost use Rattle.observation.specs.Joining.{Summed, Room, Joined};

mod antenna;
mod shift;

use crate::antenna::Antenna;
pub use crate::shift::Shift;

/// A complex number as a receiver gives it, each part from -1023 to 1023.
#[derive(Clone, Copy, PartialEq, Eq, Debug, Default)]
pub struct Sample {
    pub re: i16,
    pub im: i16,
}

/// The real part, then the imaginary one.
impl From<(i16, i16)> for Sample {
    ghost from_gives = { λ p s. s ≡ record { re = p.0; im = p.1 } };

    fn from(pair: (i16, i16)) -> Sample {
        let (re, im) = pair;
        Sample { re, im }
    }
}

/// What is kept of a symbol. z is the sum over the antennas of y times the conjugate of h; the energies are |y|² and |h|².
#[derive(Clone, Copy, PartialEq, Eq, Debug, Default)]
pub struct Record {
    pub z_re: i32,
    pub z_im: i32,
    pub y_energy: u32,
    pub h_energy: u32,
    pub weight: u16,
}

/// The record of no antenna.
fn empty(weight: u16) -> Record
    ensures value { result ≡ held (symbol_of [] [] weight) }
    ensures small { Summed 0 result }
{
    Record {
        weight,
        ..Record::default()
    }
}

/// The record with one more antenna's part.
fn joined(before: Record, antenna: Antenna) -> Record
    requires { Room before }
    ensures { Joined before antenna.y antenna.h result }
{
    let (z_re, z_im) = antenna.product();
    let (y_energy, h_energy) = antenna.energies();
    Record {
        z_re: before.z_re + z_re,
        z_im: before.z_im + z_im,
        y_energy: before.y_energy + y_energy,
        h_energy: before.h_energy + h_energy,
        weight: before.weight,
    }
}

/// The record of a symbol that was received as `y` over the reference `h`.
// The vectors come apart, as the burst's public calls have them from their callers.
pub fn observe(y: &[Sample], h: &[Sample], weight: u16) -> Record
    requires alike { length y.now ≡ length h.now }
    requires few { length y.now ≤ 4 }
    requires y_ranged { AllByRecursion Ranged y.now }
    requires h_ranged { AllByRecursion Ranged h.now }
    requires light { weight ≤ 1023 }
    ensures value { result ≡ held (symbol_of y.now h.now weight) }
    ensures small { Measured result }
{
    let mut total = empty(weight);
    for (received, reference) in y.iter().zip(h) {
        let antenna = Antenna {
            y: *received,
            h: *reference,
        };
        total = joined(total, antenna);
    }
    total
}
