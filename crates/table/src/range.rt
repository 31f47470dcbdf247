//! The range of a priori values.

ghost use Rattle.std.specs.Prelude.{◌≡◌, length, OnOk};
ghost use Rattle.std.specs.List.{prefix_len};
ghost use Rattle.refusal.specs.declared.Cause.TheVariants.{Range};
ghost use Rattle.protocol.specs.Verdicts.{inside, each, accepted};

use refusal::{Cause, Refusal};

/// The largest a priori value; the smallest is its negative.
const MOST: i16 = 8191;

// The library's test at this rule's bound; that of samples is another rule.
fn sound(value: i16) -> bool
    ensures { result ≡ inside value }
{
    (-MOST..=MOST).contains(&value)
}

/// Refused at the first value that is outside -8191 to 8191, its position counted from 1.
/// A rule of the project: one loop over the values with their index, which stops at the first that is outside.
pub fn in_range(values: &[i16]) -> Result<(), Refusal>
    ensures reply { result ≡ each inside values.now Range accepted }
    ensures all { OnOk result (prefix_len inside values.now ≡ length values.now) }
{
    for (i, value) in values.iter().enumerate() {
        if !sound(*value) {
            return Err(Cause::Range.at(i + 1));
        }
    }
    Ok(())
}
