//! What the pass gathers.

ghost use Rattle.std.specs.Prelude.{◌≡◌, ◌/◌, ◌%◌, ◌<◌, replicate, ◌+ℤ◌};
ghost use Rattle.metric.specs.Reduced.{absolute};
ghost use Rattle.detect.specs.Tops.{lowest, Held, raised_by};
ghost use Rattle.detect.specs.Buckets.{noted_by, place_of};

use crate::chart::Chart;
use crate::halves::{Halves, LOWEST};
use crate::sign::raised;
use crate::submetric::Submetric;

/// The best doubled metrics so far: of each low and each high half of a label, and at 1 and at 0 of the two signs' positions.
#[derive(Clone, Copy)]
pub struct Tops {
    pub lows: Halves,
    pub highs: Halves,
    pub v: (i64, i64),
    pub u: (i64, i64),
    pub ghost v_held: { Held v },
    pub ghost u_held: { Held u },
}

impl Tops {
    /// Over no point.
    pub fn none() -> Tops
        ensures lows { result.lows.best ≡ replicate 16 lowest }
        ensures highs { result.highs.best ≡ replicate 16 lowest }
        ensures v { result.v ≡ (lowest, lowest) }
        ensures u { result.u ≡ (lowest, lowest) }
    {
        Tops {
            lows: Halves::none(),
            highs: Halves::none(),
            v: (LOWEST, LOWEST),
            u: (LOWEST, LOWEST),
        }
    }

    /// Offers a quadrant point: its label and its doubled metrics.
    pub fn offer(&mut self, label: u8, metrics: Submetric)
        ensures lows { self.new.lows.best ≡ noted_by self.old.lows.best (label % 16) (metrics.base +ℤ absolute metrics.v +ℤ absolute metrics.u) }
        ensures highs { self.new.highs.best ≡ noted_by self.old.highs.best ((label / 16) % 16) (metrics.base +ℤ absolute metrics.v +ℤ absolute metrics.u) }
        ensures v { self.new.v ≡ raised_by self.old.v metrics.base metrics.v metrics.u }
        ensures u { self.new.u ≡ raised_by self.old.u metrics.base metrics.u metrics.v }
    {
        self.v = raised(self.v, metrics.base, metrics.v, metrics.u);
        self.u = raised(self.u, metrics.base, metrics.u, metrics.v);
        let best = metrics.best();
        self.lows.note(label % 16, best);
        self.highs.note((label / 16) % 16, best);
    }

    /// The pair of one position of a chart's labels, counted from 0.
    pub fn pair_at(&self, chart: &Chart, index: u8) -> (i64, i64)
        requires { index < chart.now.m }
        ensures value { result ≡ place_of chart.now.m chart.now.u chart.now.v self.now.lows.best self.now.highs.best self.now.v self.now.u index }
        ensures held { Held result }
    {
        let position = index + 1;
        let bit = chart.m - position;
        if position == chart.v {
            self.v
        } else if position == chart.u {
            self.u
        } else if bit < 4 {
            self.lows.over_bit(bit)
        } else {
            self.highs.over_bit(bit - 4)
        }
    }
}
