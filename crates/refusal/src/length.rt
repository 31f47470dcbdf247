//! The test of a length, which bursts and sheets share.

ghost use Rattle.std.specs.Prelude.{◌≡◌, OnOk};
ghost use Rattle.refusal.specs.Lengths.{length_reply};

use crate::{Cause, Refusal};

/// Refused where there are not as many elements as are needed.
pub fn check_length(length: usize, needed: usize) -> Result<(), Refusal>
    ensures reply { result ≡ length_reply length needed }
    ensures same { OnOk result (length ≡ needed) }
{
    if length != needed {
        return Err(Cause::Length.at(needed));
    }
    Ok(())
}
