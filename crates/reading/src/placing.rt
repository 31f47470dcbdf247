//! Places the records of a file, one after another.

ghost use Rattle.std.specs.Prelude.{◌≡◌, ◌+◌, ◌<◌, ◌≤◌, length, Some, MatchResult, slice_index};
ghost use Rattle.catalogue.specs.Modes.{catalogue_meaning};
ghost use Rattle.burst.specs.Public.{open_kept, PlacedBy};
ghost use Rattle.burstfile.specs.Modes.{mode_number};
ghost use Rattle.burstfile.specs.Format.{Shape};
ghost use Rattle.burstfile.specs.Reading.{Whole, laid, contents_of, signed_of, pair_of, pairs_of, shown};
ghost use Rattle.burstfile.specs.Values.{values_fault};
ghost use Rattle.reading.specs.Held.{sample_of, samples_of, placing_of, Filled};

use arrayvec::ArrayVec;
use burst::OpenBurst;
use burstfile::{File, FileRefusal, InRecord, Mode, Placing, RecordView, pair, record_view};
use catalogue::Catalogue;
use observation::Sample;
use refusal::Refusal;

/// Records are counted from 1.
fn number_of(i: usize) -> u16
    requires { i < 65535 }
    ensures { result ≡ i + 1 }
{
    1 + i as u16
}

/// The sample that the bytes of a pair say.
fn sample(bytes: &[u8]) -> Sample
    requires { 4 ≤ length bytes.now }
    ensures { result ≡ sample_of (pair_of (signed_of (slice_index bytes.now 0) (slice_index bytes.now 1)) (signed_of (slice_index bytes.now 2) (slice_index bytes.now 3))) }
{
    Sample::from(pair(bytes))
}

// `row` of telling.rt gathers numbers as this does samples: one function over both would take what reads a chunk, with clauses on
// what it gives, and be no plainer than three lines twice. The most bytes are asked of each, as no slice type bounds them.

/// The pairs of a vector as samples.
#[tactic(auto, using(crate::proofs::Filling::samples_more, crate::proofs::Filling::samples_end))]
fn samples(pairs: &[u8]) -> ArrayVec<Sample, 4>
    requires { length pairs.now ≤ 16 }
    ensures { result.items ≡ samples_of (pairs_of pairs.now) }
{
    let mut samples = ArrayVec::new();
    for bytes in pairs.chunks_exact(4) {
        samples.push(sample(bytes));
    }
    samples
}

/// Places a record as its mode has it.
pub fn place_record(
    burst: &mut OpenBurst<Catalogue>,
    mode: Mode,
    record: RecordView<'_>,
) -> Result<(), Refusal>
    requires y { length «record».y.now ≤ 16 }
    requires h { length «record».h.now ≤ 16 }
    ensures placed { PlacedBy (open_kept (catalogue_meaning burst.old.c) burst.old.draft) (placing_of (mode_number mode) (shown «record».entry)) result (open_kept (catalogue_meaning burst.old.c) burst.new.draft) }
    ensures same { burst.new.c ≡ burst.old.c }
{
    let y = samples(record.y);
    match mode.placing() {
        Placing::Coherent => burst.place(&y, &samples(record.h), record.weight),
        Placing::Differential => burst.place_differential(&y, record.weight),
    }
}

/// Opens a burst of this number over the constellation, and places the records of the file.
pub fn place_all(
    file: File<'_>,
    c: Catalogue,
    number: u32,
) -> Result<OpenBurst<Catalogue>, FileRefusal>
    requires whole { Whole (laid file) }
    requires shape { Shape (contents_of (laid file)) }
    ensures { MatchResult result (λ b. Filled (contents_of (laid file.entry)) c number b) (λ e. values_fault (contents_of (laid file.entry)) ≡ Some e) }
{
    let settings = file.settings;
    let mut burst = OpenBurst::open(c, number, settings.shift)?;
    let size = settings.record_size();
    for (i, bytes) in file.records.chunks_exact(size).enumerate() {
        let record = record_view(settings.antennas, bytes);
        place_record(&mut burst, settings.mode, record).in_record(number_of(i))?;
    }
    Ok(burst)
}
