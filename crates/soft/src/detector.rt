//! A detector, and the extrinsic values of one symbol.

ghost use Rattle.std.specs.Prelude.{◌≡◌, ◌<◌, ◌≤◌, length, unsigned_abs};
ghost use Rattle.std.specs.List.{AllByRecursion};
ghost use Rattle.protocol.specs.Calls.{extrinsics};
ghost use Rattle.detect.specs.Kept.{kept_value};

use arrayvec::ArrayVec;
use constellation::Constellation;
use detect::chart::Chart;
use detect::value::extrinsic_values;
use table::Table;

/// A closed burst's table, and the chart of its constellation.
#[derive(Drop)]
pub struct Detector<'a> {
    pub chart: Chart,
    pub table: &'a Table,
}

impl<'a> Detector<'a> {
    ghost use Rattle.detect.specs.Charts.{chart_meaning};

    /// The detector over a burst's constellation and table.
    pub fn of<C: Constellation>(c: &C, table: &'a Table) -> Detector<'a>
        ensures meaning { chart_meaning result.chart ≡ C.Constellation.meaning c.now }
        ensures positions { result.chart.m ≡ (C.Constellation.meaning c.now).m }
        ensures table { result.table.now ≡ table.now }
    {
        Detector {
            chart: Chart::of(c),
            table,
        }
    }
}

// A symbol is named by its index, which each method asks to be within: a type for it would have to hold the table once more.
impl Detector<'_> {
    ghost use Rattle.soft.specs.Seen.{seen, seen_at};

    /// How many positions a symbol has.
    pub(crate) fn positions(&self) -> usize
        ensures value { result ≡ self.now.chart.m }
        ensures most { result ≤ 8 }
    {
        self.chart.m as usize
    }

    /// The a priori values of one symbol, counted from 0.
    #[tactic(auto, using(crate::proofs::Rows::row_end, crate::proofs::Rows::row_in_size))]
    pub(crate) fn priors(&self, i: usize) -> &[i16]
        requires { i < length self.now.table.now.records.items }
        ensures value { result.now ≡ (seen_at self.now i).priors }
        ensures known { length result.now ≡ self.now.chart.m }
        ensures ranged { AllByRecursion (λ x. unsigned_abs x ≤ 8191) result.now }
    {
        let m = self.positions();
        let table = self.table;
        &table.priors[i * m..(i + 1) * m]
    }

    /// Writes the extrinsic values of one symbol, counted from 0.
    pub fn row(&self, i: usize, out: &mut [i16])
        requires within { i < length self.now.table.now.records.items }
        requires room { length out.old ≡ self.now.chart.m }
        ensures { out.new ≡ extrinsics kept_value (seen self.now).meaning (seen self.now).shift (seen_at self.now i) }
    {
        let record = &self.table.records[i];
        extrinsic_values(&self.chart, record, self.table.shift, self.priors(i), out);
    }

    /// The extrinsic values of one symbol, counted from 0.
    pub(crate) fn values(&self, i: usize) -> ArrayVec<i16, 8>
        requires { i < length self.now.table.now.records.items }
        ensures value { result.items ≡ extrinsics kept_value (seen self.now).meaning (seen self.now).shift (seen_at self.now i) }
        ensures known { length result.items ≡ self.now.chart.m }
    {
        let mut values = ArrayVec::from([0; 8]);
        values.truncate(self.positions());
        self.row(i, &mut values);
        values
    }
}
