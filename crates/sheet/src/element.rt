//! What can be wiped and paged: a kind of element has a blank, and bytes, the high one first.

ghost use Rattle.std.specs.Prelude.{◌≡◌, ℕ, ◌≤◌, List, [], ◌∷◌, length, pos, slice_index};
ghost use Rattle.sheet.specs.Bytes.{word16, bytes16, signed16, number16};
ghost use Rattle.sheet.specs.Calls.{reply, after};
ghost use Rattle.std.proofs.Common.{rules};

use refusal::{Refusal, check_length};

/// An element with a blank and with bytes.
pub trait Element: Copy {
    /// What a wiped table holds.
    const BLANK: Self;

    /// How many bytes an element has.
    const WIDTH: usize;

    ghost BLANK: { Self };

    ghost WIDTH: { ℕ };

    /// The bytes of an element, the high one first.
    ghost coded: { Self → List ℕ };

    /// The element that some bytes say.
    ghost decoded: { List ℕ → Self };

    /// `BLANK`, for who asks by a call.
    fn empty() -> Self
        ensures { result ≡ BLANK }
    {
        Self::BLANK
    }

    /// `WIDTH`, for who asks by a call.
    fn size() -> usize
        ensures { result ≡ WIDTH }
    {
        Self::WIDTH
    }

    /// Writes the bytes, which say the element again, into `out`, which has room for just them.
    fn put(self, out: &mut [u8]) -> Result<(), Refusal>
        ensures answer { result ≡ reply (length out.old) WIDTH }
        ensures bytes { out.new ≡ after result (coded self) out.old }
        ensures back { decoded (coded self) ≡ self };

    ghost wide: { (x : Self) → length (coded x) ≡ WIDTH };

    ghost narrow: { WIDTH ≤ 8 };
}

/// A hard bit, in one byte.
impl Element for u8 {
    const BLANK: u8 = 0;

    const WIDTH: usize = 1;

    ghost BLANK = { 0 };

    ghost WIDTH = { 1 };

    ghost coded = { λ x. x ∷ [] };

    ghost decoded = { λ bs. slice_index bs 0 };

    ghost wide = { Prim.search rules };

    ghost narrow = { Prim.search rules };

    fn put(self, out: &mut [u8]) -> Result<(), Refusal> {
        check_length(out.len(), Self::WIDTH)?;
        out.copy_from_slice(&[self]);
        Ok(())
    }
}

/// A soft value, in two bytes.
impl Element for i16 {
    const BLANK: i16 = 0;

    const WIDTH: usize = 2;

    ghost BLANK = { pos 0 };

    ghost WIDTH = { 2 };

    ghost coded = { λ x. bytes16 (word16 x) };

    ghost decoded = { λ bs. signed16 (number16 bs) };

    ghost wide = { Prim.search rules };

    ghost narrow = { Prim.search rules };

    fn put(self, out: &mut [u8]) -> Result<(), Refusal> {
        check_length(out.len(), Self::WIDTH)?;
        out.copy_from_slice(&self.to_be_bytes());
        Ok(())
    }
}
