//! The doubled metrics of the four points that a quadrant point stands for.

ghost use Rattle.std.specs.Prelude.{◌≡◌, ◌≤◌, ◌+ℤ◌, unsigned_abs};
ghost use Rattle.metric.specs.Reduced.{absolute};
ghost use Rattle.detect.specs.Tops.{Bounded};

/// The doubled metrics of the four points that a quadrant point stands for: one base, and what the real and the imaginary sign turn.
#[derive(Clone, Copy)]
pub struct Submetric {
    pub base: i64,
    pub v: i64,
    pub u: i64,
    pub ghost bounded: { Bounded base v u },
}

impl Submetric {
    /// The best of the four.
    pub fn best(&self) -> i64
        ensures value { result ≡ self.now.base +ℤ absolute self.now.v +ℤ absolute self.now.u }
        ensures small { unsigned_abs result ≤ 1065400000000000000 }
    {
        self.base + self.v.abs() + self.u.abs()
    }
}
