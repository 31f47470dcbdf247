//! The burst file: its sections as parts of its bytes, the first that is wrong with them, and the numbers that they hold.
//! Opening a burst from a file, which refuses values out of range, is left to the crate above.

#![tactic(auto)]

mod layout;
mod mode;
mod numbers;
mod records;
mod refused;
mod rules;
mod theorem;
mod view;

pub use layout::sections;
pub use mode::{Mode, Placing, UnknownMode};
pub use numbers::{check_priors, first_outside, pair, pair_at, part, value, value_at};
pub use records::{record_size, record_view};
pub use refused::{FileRefusal, InRecord};
pub use theorem::{accepts_encodings, are_bytes};
pub use view::{File, RecordView, Settings};

#[cfg(test)]
mod tests {
    use super::*;
    use refusal::{Cause, Refusal};
    use std::process::Abort;
    use std::test::Fail;

    fn refused(rt: &impl Abort, bytes: &[u8], refusal: Refusal) -> Result<(), Fail> {
        match sections(bytes) {
            Ok(_) => Err(Fail::new("accepted")),
            Err(found) => {
                assert_eq!(rt; found, refusal);
                Ok(())
            },
        }
    }

    #[test]
    fn refusals(rt: HostRuntime) -> Result<(), Fail> {
        refused(&rt, &[3, 1], Cause::Cut.at(2))?;
        refused(&rt, &[2, 11, 0], Cause::Field.at(1))?;
        refused(&rt, &[2, 9, 0, 1, 0, 1, 0, 0, 0, 0, 0], Cause::Cut.at(11))?;
        refused(&rt, &[2, 1, 0, 1, 0, 0, 0, 0, 0], Cause::Field.at(8))
    }
}
