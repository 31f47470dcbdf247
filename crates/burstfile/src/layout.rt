//! Cuts a file into its sections. In each section a file that ends inside it is refused before a field that breaks its rule.
// A rule of the project: a section is taken as named first bytes and the rest by a slice pattern, so the two counts are read alike in place.

ghost use Rattle.std.specs.Prelude.{◌≡◌, length, IfOk, Ok, Err, MatchResult};
ghost use Rattle.burstfile.specs.Format.{Contents};
ghost use Rattle.burstfile.specs.Modes.{mode_number};
ghost use Rattle.burstfile.specs.Reading.{Whole, cut, cut_vectors, cut_priors, laid, contents_of};
ghost use Rattle.burstfile.specs.Theorem.{Shaped};

use crate::rules::{check_antennas, check_counts, settings_mode};
use crate::theorem::are_bytes;
use crate::view::{File, Settings};
use refusal::{Cause, Refusal};

/// Sections 1 and 2, and the rest.
#[tactic(auto, using(crate::proofs::Cuts::settings_step))]
fn take_settings(bytes: &[u8]) -> Result<(Settings, &[u8]), Refusal>
    ensures { MatchResult result (λ p. cut bytes.now ≡ cut_vectors (length bytes.now) (mode_number p.0.mode) p.0.shift p.0.antennas p.1.now) (λ e. cut bytes.now ≡ Err e) }
{
    let [magic, mode, shift, rest @ ..] = bytes else {
        return Err(Cause::Cut.at(bytes.len()));
    };
    let mode = settings_mode(*magic, *mode)?;
    let [antennas, rest @ ..] = rest else {
        return Err(Cause::Cut.at(bytes.len()));
    };
    check_antennas(*antennas)?;
    let settings = Settings {
        mode,
        shift: *shift,
        antennas: *antennas,
    };
    Ok((settings, rest))
}

/// Section 3 of a file of `total` bytes: how many records there are, their bytes, and the rest.
#[tactic(auto, using(crate::proofs::Cuts::records_step))]
fn take_records(
    total: usize,
    settings: Settings,
    bytes: &[u8],
) -> Result<(u16, &[u8], &[u8]), Refusal>
    ensures { MatchResult result (λ p. cut_vectors total (mode_number settings.mode) settings.shift settings.antennas bytes.now ≡ cut_priors total (mode_number settings.mode) settings.shift settings.antennas p.0 p.1.now p.2.now) (λ e. cut_vectors total (mode_number settings.mode) settings.shift settings.antennas bytes.now ≡ Err e) }
{
    let [high, low, rest @ ..] = bytes else {
        return Err(Cause::Cut.at(total));
    };
    let count = u16::from_be_bytes([*high, *low]);
    let size = count as usize * settings.record_size();
    let Some((records, rest)) = rest.split_at_checked(size) else {
        return Err(Cause::Cut.at(total));
    };
    Ok((count, records, rest))
}

/// Section 4, and the end.
#[tactic(auto, using(crate::proofs::Cuts::priors_step))]
fn take_priors<'a>(
    total: usize,
    settings: Settings,
    count: u16,
    records: &'a [u8],
    bytes: &'a [u8],
) -> Result<File<'a>, Refusal>
    ensures { MatchResult result (λ f. cut_priors total (mode_number settings.mode) settings.shift settings.antennas count records.now bytes.now ≡ Ok (laid f)) (λ e. cut_priors total (mode_number settings.mode) settings.shift settings.antennas count records.now bytes.now ≡ Err e) }
{
    let [high, low, rest @ ..] = bytes else {
        return Err(Cause::Cut.at(total));
    };
    let priors = u16::from_be_bytes([*high, *low]);
    if rest.len() < 2 * priors as usize {
        return Err(Cause::Cut.at(total));
    }
    check_counts(settings.mode, count, records.len(), priors, rest.len())?;
    Ok(File {
        settings,
        count,
        records,
        priors: rest,
    })
}

fn take_sections(bytes: &[u8]) -> Result<File<'_>, Refusal>
    ensures { MatchResult result (λ f. cut bytes.now ≡ Ok (laid f)) (λ e. cut bytes.now ≡ Err e) }
{
    let total = bytes.len();
    let (settings, rest) = take_settings(bytes)?;
    let (count, records, rest) = take_records(total, settings, rest)?;
    take_priors(total, settings, count, records, rest)
}

/// The sections of a file: exactly those that a writer can make are accepted.
pub fn sections(bytes: &[u8]) -> Result<File<'_>, Refusal>
    ensures cuts { MatchResult result (λ f. cut bytes.now ≡ Ok (laid f)) (λ e. cut bytes.now ≡ Err e) }
    ensures whole { IfOk result (λ f. Whole (laid f)) }
    ensures format { MatchResult result (λ f. Shaped bytes.now (contents_of (laid f))) (λ _. (c : Contents) → Shaped bytes.now c → ⊥) }
{
    are_bytes(bytes);
    take_sections(bytes)
}
