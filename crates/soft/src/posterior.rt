//! Posterior values, and the hard decisions that they make.

ghost use Rattle.std.specs.Prelude.{◌≡◌, ◌<◌, ◌≤◌, length, pos, ◌+ℤ◌, if◌then◌else◌, int_lt};
ghost use Rattle.protocol.specs.Calls.{reading, decided};
ghost use Rattle.detect.specs.Kept.{kept_value};
ghost use Rattle.soft.specs.Seen.{seen, seen_at};

use crate::detector::Detector;

// An a priori and an extrinsic value are plain numbers here as for who reads them (a rule of the project), with no type for both.

/// The posterior value.
fn posterior(a: i16, e: i16) -> i32
    ensures { result ≡ a +ℤ e }
{
    i32::from(a) + i32::from(e)
}

/// An a priori and an extrinsic value, and their sum.
fn with_posterior(a: i16, e: i16) -> (i16, i16, i32)
    ensures { result ≡ (a, e, a +ℤ e) }
{
    (a, e, posterior(a, e))
}

/// 1 where the posterior value is above 0, else 0.
fn decision(a: i16, e: i16) -> u8
    ensures { result ≡ (if int_lt (pos 0) (a +ℤ e) then 1 else 0) }
{
    u8::from(posterior(a, e) > 0)
}

impl Detector<'_> {
    /// The a priori, the extrinsic and the posterior value of a symbol's position, both counted from 1.
    pub fn look(&self, symbol: usize, position: usize) -> (i16, i16, i32)
        requires symbol_in { (1 ≤ symbol) × (symbol ≤ length self.now.table.now.records.items) }
        requires position_in { (1 ≤ position) × (position ≤ self.now.chart.m) }
        ensures { result ≡ reading kept_value (seen self.now) symbol position }
    {
        let values = self.values(symbol - 1);
        let priors = self.priors(symbol - 1);
        with_posterior(priors[position - 1], values[position - 1])
    }

    /// Writes the hard decisions of one symbol, counted from 0. Where the lent bits are zipped with the values, what they were
    /// written stays open, so these two are read by their index.
    pub(crate) fn decide_row(&self, i: usize, out: &mut [u8])
        requires within { i < length self.now.table.now.records.items }
        requires room { length out.old ≡ self.now.chart.m }
        ensures { out.new ≡ decided kept_value (seen self.now).meaning (seen self.now).shift (seen_at self.now i) }
    {
        let priors = self.priors(i);
        let values = self.values(i);
        for (j, bit) in out.iter_mut().enumerate() {
            *bit = decision(priors[j], values[j]);
        }
    }
}
