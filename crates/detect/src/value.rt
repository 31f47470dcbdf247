//! The extrinsic values of a symbol.

ghost use Rattle.std.specs.Prelude.{◌≡◌, ◌+◌, ◌^◌, ◌≤◌, map, length, pos, ◌-ℤ◌, ◌*ℤ◌, unsigned_abs};
ghost use Rattle.std.specs.Int.Signed.{shr_z};
ghost use Rattle.std.specs.List.{range_with_len, AllByRecursion};
ghost use Rattle.metric.specs.Exhaustive.{Symbol, clipped as clip};
ghost use Rattle.metric.specs.Value.{extrinsic_value};
ghost use Rattle.observation.specs.Observed.{Measured, held as held_of};
ghost use Rattle.detect.specs.Tops.{Valuing, value_of};
ghost use Rattle.detect.specs.Charts.{chart_meaning};
ghost use Rattle.detect.specs.Kept.{kept_value};

use crate::chart::Chart;
use crate::pass::gather;
use crate::received::Received;
use crate::tops::Tops;
use observation::{Record, Shift};

/// A difference of doubled metrics, less the bit's own part.
fn less_own(difference: i64, own: i64) -> i64
    requires { (unsigned_abs difference ≤ 4611686018427387904) × (unsigned_abs own ≤ 9006099743113216) }
    ensures value { result ≡ difference -ℤ pos 2 *ℤ own }
    ensures small { unsigned_abs result ≤ 4629698217913614336 }
{
    difference - 2 * own
}

/// A difference over 2S, rounded down.
fn floored(difference: i64, shift: Shift) -> i64
    requires { unsigned_abs difference ≤ 4629699317425242112 }
    ensures { result ≡ shr_z difference (2 ^ (shift.exponent + 1)) }
{
    difference >> (shift.exponent + 1)
}

/// A number, or the nearest bound of what a value can be.
fn clipped(number: i64) -> i16
    ensures { result ≡ clip number }
{
    number.clamp(-8191, 8191) as i16
}

/// The extrinsic value of a bit, from its best at 1 and at 0, both doubled: the bit's own part is taken off, the rest is rounded and clipped.
fn valued(one: i64, zero: i64, shift: Shift, prior: i16) -> i16
    requires { Valuing one zero shift.exponent prior }
    ensures { result ≡ value_of (2 ^ shift.exponent) prior (one -ℤ zero) }
{
    let scale = shift.scale();
    let difference = less_own(one - zero, scale * (prior as i64));
    clipped(floored(difference + scale, shift))
}

/// The extrinsic values of a symbol's bits: those of the exhaustive detector.
pub fn extrinsic_values(
    chart: &Chart,
    observed: &Record,
    shift: Shift,
    priors: &[i16],
    out: &mut [i16],
)
    requires measured { Measured observed.now }
    requires known { length priors.now ≡ chart.now.m }
    requires ranged { AllByRecursion (λ x. unsigned_abs x ≤ 8191) priors.now }
    requires room { length out.old ≡ chart.now.m }
    ensures values { out.new ≡ map (kept_value (chart_meaning chart.now) shift.exponent observed.now priors.now) (range_with_len 1 chart.now.m) }
    ensures exhaustive { (s : Symbol) → observed.now ≡ held_of s → out.new ≡ map (extrinsic_value (chart_meaning chart.now) shift.exponent s priors.now) (range_with_len 1 chart.now.m) }
{
    let symbol = Received {
        chart,
        record: observed,
        shift,
        priors,
    };
    let mut tops = Tops::none();
    gather(&symbol, &mut tops);
    // A zip with the a priori values was tried: of what is written through it a proof knows nothing after the loop.
    for (index, value) in out.iter_mut().enumerate() {
        let (one, zero) = tops.pair_at(chart, index as u8);
        *value = valued(one, zero, shift, priors[index]);
    }
}
