//! A constellation's answers, copied out.

ghost use Rattle.std.specs.Prelude.{◌≡◌, ◌≤◌, length, take};
ghost use Rattle.constellation.specs.Meaning.{Lawful};

use constellation::{Constellation, Point};

/// A constellation's answers, copied out once, so that detection asks it once for all symbols.
// Its points are an array with their number beside it, since an array vector is not `Copy`, which a chart is.
#[derive(Clone, Copy)]
pub struct Chart {
    pub m: u8,
    pub u: u8,
    pub v: u8,
    pub size: u8,
    pub points: [Point; 64],
    pub ghost sized: { size ≤ 64 },
    pub ghost lawful: { ∥ Lawful (record { m = m; u = u; v = v; points = take size points }) ∥₁ },
}

/// The quadrant points in their order; what stands past the last says nothing.
fn points_of<C: Constellation>(c: &C) -> [Point; 64]
    ensures { take (length (C.Constellation.meaning c.now).points) result ≡ (C.Constellation.meaning c.now).points }
{
    let mut points = [Point::default(); 64];
    // Over numbers, since a constellation answers by number.
    for number in 1..=c.size() as usize {
        points[number - 1] = c.point(number);
    }
    points
}

impl Chart {
    ghost use Rattle.detect.specs.Charts.{chart_meaning};

    /// The chart of a constellation.
    pub fn of<C: Constellation>(c: &C) -> Chart
        ensures meaning { chart_meaning result ≡ C.Constellation.meaning c.now }
        ensures sized { result.size ≤ 64 }
    {
        Chart {
            m: c.m(),
            u: c.u(),
            v: c.v(),
            size: c.size(),
            points: points_of(c),
        }
    }

    /// The quadrant points.
    pub(crate) fn quadrant(&self) -> &[Point]
        ensures { result.now ≡ (chart_meaning self.now).points }
    {
        &self.points[..self.size as usize]
    }
}
