//! One antenna's part of a record.

ghost use Rattle.std.specs.Prelude.{◌≡◌};
ghost use Rattle.observation.specs.Observed.{Ranged};
ghost use Rattle.observation.specs.Joining.{energy_of, product_of, conjugated};

use crate::Sample;

/// What one antenna received, `y`, and its reference, `h`.
#[derive(Clone, Copy)]
pub struct Antenna {
    pub y: Sample,
    pub h: Sample,
    pub ghost y_ranged: { Ranged y },
    pub ghost h_ranged: { Ranged h },
}

/// |s|²
fn energy(sample: Sample) -> u32
    requires { Ranged sample }
    ensures { result ≡ energy_of sample }
{
    let re = sample.re.unsigned_abs() as u32;
    let im = sample.im.unsigned_abs() as u32;
    re * re + im * im
}

impl Antenna {
    /// |y|² and |h|².
    pub fn energies(self) -> (u32, u32)
        ensures { result ≡ (energy_of self.y, energy_of self.h) }
    {
        (energy(self.y), energy(self.h))
    }

    /// The conjugate of h.
    fn conjugate(self) -> Sample
        ensures { result ≡ conjugated self.h }
    {
        Sample {
            re: self.h.re,
            im: -self.h.im,
        }
    }

    /// y times the conjugate of h: the real part and the imaginary one.
    pub fn product(self) -> (i32, i32)
        ensures { result ≡ product_of self.y (conjugated self.h) }
    {
        let h = self.conjugate();
        let (y_re, y_im) = (self.y.re as i32, self.y.im as i32);
        let (h_re, h_im) = (h.re as i32, h.im as i32);
        (y_re * h_re - y_im * h_im, y_re * h_im + y_im * h_re)
    }
}
