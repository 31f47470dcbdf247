//! What a placing is refused for.

ghost use Rattle.std.specs.Prelude.{◌≡◌, ◌<◌, ◌≤◌, ◌&&◌, not, OnOk, ◌==◌, nat_le, nat_lt};
ghost use Rattle.std.specs.List.{position, AllByRecursion};
ghost use Rattle.observation.specs.Observed.{Ranged};
ghost use Rattle.refusal.specs.declared.Cause.TheVariants.{Antennas, Sample as BadSample, Weight as TooHeavy, Full};
ghost use Rattle.protocol.specs.Verdicts.{each, need as allow, accepted, up_to};
ghost use Rattle.protocol.specs.Placings.{part as small, fine};

use observation::Sample;
use refusal::{Cause, Refusal};

/// The largest part of a sample; the smallest is its negative.
const LARGEST: i16 = 1023;

/// The largest weight.
const HEAVIEST: u16 = 1023;

/// The most antennas.
const MOST: usize = 4;

/// The most symbols.
const ROOM: usize = 128;

/// Refused unless there are 1 to 4 antennas, and as many beside them.
pub fn check_antennas(antennas: usize, beside: usize) -> Result<(), Refusal>
    ensures reply { result ≡ allow (up_to 4 antennas && beside == antennas) Antennas antennas accepted }
    ensures few { OnOk result ((1 ≤ antennas) × (antennas ≤ 4) × (antennas ≡ beside)) }
{
    if !(1..=MOST).contains(&antennas) || beside != antennas {
        return Err(Cause::Antennas.at(antennas));
    }
    Ok(())
}

// The library's test at this rule's bound; that of a priori values is another rule.
fn fits(part: i16) -> bool
    ensures { result ≡ small part }
{
    (-LARGEST..=LARGEST).contains(&part)
}

fn sound(sample: Sample) -> bool
    ensures { result ≡ fine sample }
{
    fits(sample.re) && fits(sample.im)
}

/// The index of the first sample that is not sound.
fn unsound(vector: &[Sample]) -> Option<usize>
    ensures { result ≡ position (λ s. not (fine s)) vector.now }
{
    vector.iter().position(|sample| !sound(*sample))
}

/// Refused at the first antenna whose sample has a part outside -1023 to 1023, counted from 1.
#[tactic(auto, using(crate::proofs::Fronts::all_fine, crate::proofs::Fronts::all_ranged))]
pub fn check_samples(vector: &[Sample]) -> Result<(), Refusal>
    ensures reply { result ≡ each fine vector.now BadSample accepted }
    ensures ranged { OnOk result (AllByRecursion Ranged vector.now) }
{
    match unsound(vector) {
        Some(i) => Err(Cause::Sample.at(i + 1)),
        None => Ok(()),
    }
}

/// Refused where the weight is above 1023.
pub fn check_weight(weight: u16) -> Result<(), Refusal>
    ensures reply { result ≡ allow (nat_le weight 1023) TooHeavy 0 accepted }
    ensures light { OnOk result (weight ≤ 1023) }
{
    if weight > HEAVIEST {
        return Err(Cause::Weight.at(0));
    }
    Ok(())
}

/// Refused where `placed` symbols are as many as there can be.
pub fn check_room(placed: usize) -> Result<(), Refusal>
    ensures reply { result ≡ allow (nat_lt placed 128) Full 0 accepted }
    ensures left { OnOk result (placed < 128) }
{
    if placed >= ROOM {
        return Err(Cause::Full.at(0));
    }
    Ok(())
}
