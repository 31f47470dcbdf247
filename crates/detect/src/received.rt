//! What is known of one symbol.

ghost use Rattle.std.specs.Prelude.{◌≡◌, ◌≤◌, ◌==◌, cond, length, pos, unsigned_abs};
ghost use Rattle.metric.specs.Exhaustive.{at_bit};
ghost use Rattle.observation.specs.Observed.{Measured};
ghost use Rattle.detect.specs.Parts.{prior_sum, Given, Given-prop, Placed, Parted};

use crate::chart::Chart;
use crate::submetric::Submetric;
use crate::terms::{based, turned};
use crate::weights::weighed;
use constellation::{Point, bit_at};
use observation::{Record, Shift};

/// A symbol as it came over a chart: what its record keeps, the a priori values of its bits, and the shift of their scale.
#[derive(Clone, Copy)]
pub struct Received<'a> {
    pub chart: &'a Chart,
    pub record: &'a Record,
    pub shift: Shift,
    pub priors: &'a [i16],
    pub ghost measured: { Measured record.now },
    pub ghost known: { length priors.now ≡ chart.now.m },
    pub ghost given: { Given shift.exponent priors.now chart.now.m chart.now.u chart.now.v } by { Given-prop },
}

// The range of an a priori value is asked where one is computed with: sheets are lent slices of plain numbers (a rule of the
// project), and a type of bounded numbers would be made of each for one call.

/// An a priori value, where its bit is 1.
fn counted(bit: u8, prior: i16) -> i64
    requires { unsigned_abs prior ≤ 8191 }
    ensures value { result ≡ cond (bit == 1) prior (pos 0) }
    ensures small { unsigned_abs result ≤ 8191 }
{
    if bit == 1 { i64::from(prior) } else { 0 }
}

impl Received<'_> {
    /// The a priori values of the label's bits that are 1.
    fn prior_sum(&self, label: u8) -> i64
        ensures value { result ≡ prior_sum self.now.chart.now.m label self.now.priors.now self.now.chart.now.m }
        ensures small { unsigned_abs result ≤ 65528 }
    {
        let mut sum: i64 = 0;
        // With its index: a position counts from 1, and the bit is asked by it.
        for (index, prior) in self.priors.iter().enumerate() {
            sum += counted(bit_at(self.chart.m, index as u8 + 1, label), *prior);
        }
        sum
    }

    /// The a priori value at a position, counted from 1.
    fn prior_at(&self, position: u8) -> i16
        requires least { 1 ≤ position }
        requires most { position ≤ self.now.chart.now.m }
        ensures value { result ≡ at_bit self.now.priors.now position }
        ensures small { unsigned_abs result ≤ 8191 }
    {
        self.priors[position as usize - 1]
    }

    /// The base of a quadrant point's doubled metrics, and what the signs of its coordinates turn.
    pub fn submetric(&self, point: Point) -> Submetric
        requires { Placed point }
        ensures { Parted point self.now.record.now self.now.shift.exponent self.now.priors.now self.now.chart.now.m self.now.chart.now.u self.now.chart.now.v result.base result.v result.u }
    {
        let record = self.record;
        let scale = self.shift.scale();
        let weight = weighed(record.weight, point.e);
        let sum = self.prior_sum(point.label);
        let base = based(weight, point.x, point.y, record, scale, sum);
        let real = self.prior_at(self.chart.v);
        let v = turned(weight, point.x, record.z_re, scale, real);
        let imaginary = self.prior_at(self.chart.u);
        let u = turned(weight, point.y, record.z_im, scale, imaginary);
        Submetric { base, v, u }
    }
}
