//! One pass over the quadrant points, for all positions at once: each point is noted in the buckets of its two half labels.

ghost use Rattle.std.specs.Prelude.{◌≡◌, replicate};
ghost use Rattle.detect.specs.Buckets.{Gathered};
ghost use Rattle.detect.specs.Charts.{chart_meaning};
ghost use Rattle.detect.specs.Tops.{lowest};

use crate::received::Received;
use crate::tops::Tops;

/// Gathers the best doubled metrics over the quadrant points, in `tops` that are over no point yet.
// In what is lent: handed back by value they were moved twice a symbol, which took as long as the pass over a few points.
pub fn gather(symbol: &Received, tops: &mut Tops)
    requires lows { tops.old.lows.best ≡ replicate 16 lowest }
    requires highs { tops.old.highs.best ≡ replicate 16 lowest }
    requires v { tops.old.v ≡ (lowest, lowest) }
    requires u { tops.old.u ≡ (lowest, lowest) }
    ensures { Gathered symbol.now.record.now symbol.now.shift.exponent symbol.now.priors.now symbol.now.chart.now.m symbol.now.chart.now.u symbol.now.chart.now.v (chart_meaning symbol.now.chart.now).points tops.new.lows.best tops.new.highs.best tops.new.v tops.new.u }
{
    for point in symbol.chart.quadrant() {
        tops.offer(point.label, symbol.submetric(*point));
    }
}
