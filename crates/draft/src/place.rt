//! Placing symbols.

ghost use Rattle.std.specs.Prelude.{◌≡◌, ◌<◌, ◌≤◌, length, IfOk, IfErr, OnOk};
ghost use Rattle.std.specs.List.{prefix_len};
ghost use Rattle.arrayvec.specs.ArrayVec.{array_vec_len};
ghost use Rattle.observation.specs.Observed.{Measured};
ghost use Rattle.protocol.specs.Placings.{place_verdict, coherent, differential, fine};
ghost use Rattle.protocol.specs.Stands.{recorded};
ghost use Rattle.protocol.specs.Verdicts.{accepted};
ghost use Rattle.draft.specs.Drafted.{view, empty, reference_of, place_left, added, referring};

use crate::checks::{check_antennas, check_room, check_samples, check_weight};
use crate::draft::Draft;
use arrayvec::ArrayVec;
use observation::{Record, Sample, Shift, observe};
use refusal::Refusal;

// The vectors and the weight are asked for apart, as the public calls have them from their callers: a type for the three would be
// made in each call and taken apart in the next.
impl Draft {
    /// No symbol, and no reference.
    pub fn new(number: u32, shift: Shift) -> Draft
        ensures { view result ≡ empty number shift.exponent }
    {
        Draft {
            records: ArrayVec::new(),
            number,
            shift,
            reference: None,
        }
    }

    /// One record more.
    #[tactic(auto, using(crate::proofs::Fronts::measured_more))]
    fn add(&mut self, record: Record)
        requires room { array_vec_len self.old.records < 128 }
        requires sizes { Measured «record» }
        ensures { view self.new ≡ added (view self.old) «record» }
    {
        self.records.push(record);
    }

    /// Keeps the vector as the reference.
    fn keep(&mut self, y: &[Sample])
        requires some { 1 ≤ length y.now }
        requires four { length y.now ≤ 4 }
        requires sound { prefix_len fine y.now ≡ length y.now }
        ensures { view self.new ≡ referring (view self.old) y.now }
    {
        // There is room for four, so this is always `Some`.
        self.reference = ArrayVec::try_from(y).ok();
    }

    /// The record of a symbol that may be placed, or why it may not.
    fn record_of(&self, y: &[Sample], h: &[Sample], weight: u16) -> Result<Record, Refusal>
        ensures made { IfOk result (λ r. (r ≡ recorded y.now h.now weight) × Measured r) }
        ensures room { OnOk result (array_vec_len self.now.records < 128) }
        ensures ok { OnOk result (place_verdict (array_vec_len self.now.records) (reference_of self.now) (coherent y.now h.now weight) ≡ accepted) }
        ensures err { IfErr result (λ e. place_verdict (array_vec_len self.now.records) (reference_of self.now) (coherent y.now h.now weight) ≡ Err e) }
    {
        check_antennas(y.len(), h.len())?;
        check_samples(y)?;
        check_samples(h)?;
        check_weight(weight)?;
        check_room(self.records.len())?;
        Ok(observe(y, h, weight))
    }

    /// Adds a symbol that was received as `y` over the reference `h`.
    pub fn place(&mut self, y: &[Sample], h: &[Sample], weight: u16) -> Result<(), Refusal>
        ensures reply { result ≡ place_verdict (array_vec_len self.old.records) (reference_of self.old) (coherent y.now h.now weight) }
        ensures left { view self.new ≡ place_left result (view self.old) (coherent y.now h.now weight) }
    {
        let record = self.record_of(y, h, weight)?;
        self.add(record);
        Ok(())
    }

    /// The first only keeps `y` as the reference; each later one adds a symbol over the kept reference and then keeps `y`.
    pub fn place_differential(&mut self, y: &[Sample], weight: u16) -> Result<(), Refusal>
        ensures reply { result ≡ place_verdict (array_vec_len self.old.records) (reference_of self.old) (differential y.now weight) }
        ensures left { view self.new ≡ place_left result (view self.old) (differential y.now weight) }
    {
        match &self.reference {
            None => {
                check_antennas(y.len(), y.len())?;
                check_samples(y)?;
                check_weight(weight)?;
            }
            Some(reference) => {
                let record = self.record_of(y, reference, weight)?;
                self.add(record);
            }
        }
        self.keep(y);
        Ok(())
    }
}
