//! A refusal with the record that it is in.

ghost use Rattle.std.specs.Prelude.{◌≡◌, ℕ, Some, Result};
ghost use Rattle.burstfile.specs.declared.refused.FileRefusal.{FileRefusal};
ghost use Rattle.burstfile.specs.Refused.{in_record, numbered, refused_text};

use refusal::Refusal;
use std::fmt;

/// A refusal, kept whole, and the number of the record that it is in, from 1, if it is in one.
#[derive(Clone, Copy, PartialEq, Eq, Debug)]
pub struct FileRefusal {
    pub record: Option<u16>,
    pub refusal: Refusal,
}

/// A refusal outside the records.
impl From<Refusal> for FileRefusal {
    ghost from_gives = { λ f r. r ≡ in_record 0 f };

    fn from(refusal: Refusal) -> FileRefusal {
        FileRefusal {
            record: None,
            refusal,
        }
    }
}

/// Adds the number of the record that a refusal is in. Records count from 1: 0 is outside them.
// The number stays a number here, which it is in every call but one for 0: an Option would be made only to be taken apart.
pub trait InRecord<T> {
    ghost says: { Self → ℕ → Result T FileRefusal → Type 0 };

    fn in_record(self, record: u16) -> Result<T, FileRefusal>
        ensures { says self «record» result };
}

impl<T> InRecord<T> for Result<T, Refusal> {
    ghost says = { λ s n r. r ≡ numbered n s };

    fn in_record(self, record: u16) -> Result<T, FileRefusal> {
        let record = (record > 0).then_some(record);
        self.map_err(|refusal| FileRefusal { record, refusal })
    }
}

/// For instance `refused 16 at 1`, or `refused record 5: 2 at 1`.
impl fmt::Display for FileRefusal {
    ghost output = { λ f. Some (refused_text f) };

    fn fmt<W: fmt::Write>(&self, f: &mut fmt::Formatter<W>) -> fmt::Result {
        let refusal = self.refusal;
        match self.record {
            Some(record) => write!(f, "refused record {record}: {refusal}"),
            None => write!(f, "refused {refusal}"),
        }
    }
}
