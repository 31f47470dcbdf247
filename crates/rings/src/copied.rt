//! One copy of the points below.

ghost use Rattle.std.specs.Prelude.{◌≡◌, ◌+◌, ◌*◌, ◌^◌, ◌<◌, ◌≤◌};
ghost use Rattle.rings.specs.Layered.{scaled, copied};

use constellation::Point;

/// What one copy makes of a point.
#[derive(Clone, Copy)]
pub struct Copied {
    /// What the coordinates are multiplied by, in 1024ths.
    pub scale: u32,
    /// What is put after the label.
    pub code: u8,
    /// What is added to the noise energy.
    pub added: u32,
}

impl Copied {
    /// A coordinate in this copy, rounded to the nearest.
    fn scaled(self, coordinate: u16) -> u16
        requires { self.scale < 2 ^ 12 }
        ensures { result ≡ scaled self.scale coordinate }
    {
        ((self.scale * (coordinate as u32) + 512) / 1024).min(4095) as u16
    }

    /// A point in this copy, with a code of `bits` bits.
    pub fn lift(self, bits: u8, p: Point) -> Point
        requires narrow { bits ≤ 2 }
        requires small { (self.scale < 2 ^ 12) × ((self.added < 2 ^ 24) × (p.e ≤ 2 ^ 27)) }
        requires fits { p.label * 2 ^ bits + self.code < 2 ^ 8 }
        ensures { result ≡ copied bits self p }
    {
        Point {
            x: self.scaled(p.x),
            y: self.scaled(p.y),
            e: (p.e + self.added).min(1 << 27),
            label: (p.label << bits) + self.code,
        }
    }
}
