//! What a constellation is, for whoever detects over it: a trait with a written meaning and laws.

#![tactic(auto)]

ghost use Rattle.std.specs.Prelude.{◌≡◌, ℕ, length};
ghost use Rattle.constellation.specs.Meaning.{Meaning, Lawful, Good, nth};

mod label;
mod numbering;

pub use crate::label::{bit_at, gray};
pub use crate::numbering::place;

/// A point of the first quadrant. It stands for the four points (±x, ±y).
#[derive(Clone, Copy, PartialEq, Eq, Debug, Default)]
pub struct Point {
    pub x: u16,
    pub y: u16,
    /// The noise energy: 2^20 for a plain point, more where the reference is noisy too.
    pub e: u32,
    /// The label, with zeros at the two sign positions.
    pub label: u8,
}

/// A constellation. `meaning` says what it is, and everything above is proved against that alone.
pub trait Constellation {
    ghost meaning: { Self → Meaning };

    /// The number of bits of a label, 2 to 8.
    fn m(&self) -> u8
        ensures { result ≡ (meaning self.now).m };

    /// The position of the imaginary sign, from 1.
    fn u(&self) -> u8
        ensures { result ≡ (meaning self.now).u };

    /// The position of the real sign, from 1.
    fn v(&self) -> u8
        ensures { result ≡ (meaning self.now).v };

    /// How many quadrant points there are, 1 to 64.
    fn size(&self) -> u8
        ensures { result ≡ length (meaning self.now).points };

    /// The quadrant point of a number, counted from 1: 0 gives the first, a number past the end the last.
    fn point(&self, number: usize) -> Point
        ensures { result ≡ nth (meaning self.now).points number };

    ghost lawful: { (c : Self) → Lawful (meaning c) };

    ghost good: { (c : Self) (k : ℕ) → Good (meaning c).m (meaning c).u (meaning c).v (nth (meaning c).points k) };
}
