//! A burst from a file: the sections first, then what the burst itself refuses.

ghost use Rattle.std.specs.Prelude.{◌≡◌, ◌≤◌, length, Some, None, Err, MatchResult};
ghost use Rattle.catalogue.specs.Modes.{catalogue_meaning, mode_meaning};
ghost use Rattle.protocol.specs.Stands.{Stands};
ghost use Rattle.burst.specs.Public.{closed_kept};
ghost use Rattle.burstfile.specs.Modes.{mode_number};
ghost use Rattle.burstfile.specs.Format.{Shape};
ghost use Rattle.burstfile.specs.Reading.{Whole, laid, contents_of};
ghost use Rattle.burstfile.specs.Values.{values_fault, read_spec};
ghost use Rattle.reading.specs.Held.{offered, file_state, Holds};

use crate::placing::place_all;
use crate::telling::tell_all;
use burst::Burst;
use burstfile::{File, FileRefusal, Mode, check_priors, sections};
use catalogue::Catalogue;

/// The constellation of a mode.
fn constellation_of(mode: Mode) -> Catalogue
    ensures { catalogue_meaning result ≡ offered (mode_meaning (mode_number mode)) }
{
    // By number, which the catalogue takes from anyone: a second way in by mode would be its ten lines again, and no plainer.
    let Some(c) = Catalogue::of_mode(mode.number()) else {
        unreachable();
    };
    c
}

/// The burst of a file whose sections stand.
// Not inlined: in its caller's frame there would be a place more for a burst, which each call clears.
#[inline(never)]
fn burst_of(file: File<'_>, number: u32) -> Result<Burst<Catalogue>, FileRefusal>
    requires whole { Whole (laid file) }
    requires shape { Shape (contents_of (laid file)) }
    ensures { MatchResult result (λ b. (values_fault (contents_of (laid file.entry)) ≡ None) × Stands (closed_kept (catalogue_meaning b.c) b.table) (file_state (contents_of (laid file.entry)) number) × (length (closed_kept (catalogue_meaning b.c) b.table).symbols ≤ 128) × ((catalogue_meaning b.c).m ≤ 8)) (λ e. values_fault (contents_of (laid file.entry)) ≡ Some e) }
{
    let c = constellation_of(file.settings.mode);
    let placed = place_all(file, c, number)?;
    check_priors(file.priors)?;
    let mut burst = placed.close();
    tell_all(&mut burst, file.priors)?;
    Ok(burst)
}

/// Reads a burst of this number from the bytes of a file: the burst that the file holds, or the first refusal, with its record.
pub fn read_burst(bytes: &[u8], number: u32) -> Result<Burst<Catalogue>, FileRefusal>
    ensures { MatchResult result (λ b. Holds (read_spec bytes.now) number (closed_kept (catalogue_meaning b.c) b.table) × (length (closed_kept (catalogue_meaning b.c) b.table).symbols ≤ 128) × ((catalogue_meaning b.c).m ≤ 8)) (λ e. read_spec bytes.now ≡ Err e) }
{
    let file = sections(bytes)?;
    burst_of(file, number)
}
