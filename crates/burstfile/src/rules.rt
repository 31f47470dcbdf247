//! The rules of the fields of each section: the first field that breaks its own is refused, at its offset.

ghost use Rattle.std.specs.Prelude.{◌≡◌, ◌^◌, ◌<◌, None, Some, MatchResult};
ghost use Rattle.burstfile.specs.Modes.{mode_number};
ghost use Rattle.burstfile.specs.Reading.{broken_settings, broken_antennas, broken_priors, field_fault};

use crate::mode::Mode;
use refusal::{Cause, Refusal};

/// Section 1: its mode.
pub fn settings_mode(magic: u8, number: u8) -> Result<Mode, Refusal>
    ensures { MatchResult result (λ mode. (mode_number mode ≡ number) × (broken_settings magic number ≡ None)) (λ e. field_fault (broken_settings magic number) ≡ Some e) }
{
    if magic != 2 {
        return Err(Cause::Field.at(0));
    }
    Mode::try_from(number).map_err(|_| Cause::Field.at(1))
}

/// Section 2.
pub fn check_antennas(antennas: u8) -> Result<(), Refusal>
    ensures { MatchResult result (λ _. broken_antennas antennas ≡ None) (λ e. field_fault (broken_antennas antennas) ≡ Some e) }
{
    if !(1..=4).contains(&antennas) {
        return Err(Cause::Field.at(3));
    }
    Ok(())
}

/// Section 4, after `size` bytes of `count` records: it counts `priors` values, and `left` bytes follow.
pub fn check_counts(
    mode: Mode,
    count: u16,
    size: usize,
    priors: u16,
    left: usize,
) -> Result<(), Refusal>
    requires { size < 2 ^ 63 }
    ensures { MatchResult result (λ _. broken_priors (mode_number mode) count size priors left ≡ None) (λ e. field_fault (broken_priors (mode_number mode) count size priors left) ≡ Some e) }
{
    let end = 2 * priors as usize;
    if !mode.allows_priors(count, priors) {
        return Err(Cause::Field.at(6 + size));
    }
    if left != end {
        return Err(Cause::Field.at(8 + size + end));
    }
    Ok(())
}
