//! Sheets: what is written of all symbols, one symbol after another.
//!
//! The two loops are alike but for what writes a row. One function over both would take that as a closure, with clauses on what
//! each call asks and leaves, and be no plainer than two lines twice.
//! Each row is lent by its range: `chunks_exact_mut` was tried, and the sheet's contents stayed open, since of what such chunks were
//! written a proof knows the length alone.

ghost use Rattle.std.specs.Prelude.{◌≡◌, ◌*◌, length};
ghost use Rattle.protocol.specs.Calls.{sheet_of, bits_of};
ghost use Rattle.detect.specs.Kept.{kept_value};
ghost use Rattle.soft.specs.Seen.{seen};

use crate::detector::Detector;

impl Detector<'_> {
    /// Writes the extrinsic values of all symbols.
    pub fn fill(&self, sheet: &mut [i16])
        requires { length sheet.old ≡ length self.now.table.now.records.items * self.now.chart.m }
        ensures { sheet.new ≡ sheet_of kept_value (seen self.now) }
    {
        let m = self.positions();
        for i in 0..self.table.records.len() {
            self.row(i, &mut sheet[i * m..(i + 1) * m]);
        }
    }

    /// Writes the hard decisions of all symbols.
    pub fn decide(&self, bits: &mut [u8])
        requires { length bits.old ≡ length self.now.table.now.records.items * self.now.chart.m }
        ensures { bits.new ≡ bits_of kept_value (seen self.now) }
    {
        let m = self.positions();
        for i in 0..self.table.records.len() {
            self.decide_row(i, &mut bits[i * m..(i + 1) * m]);
        }
    }
}
