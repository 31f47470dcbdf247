//! Why a call is refused: a cause, which has a number, and the place that it speaks of.

#![tactic(auto)]

ghost use Rattle.std.specs.Prelude.{◌≡◌, Some};
ghost use Rattle.refusal.specs.Numbers.{number_of, refusal_text};

mod length;

pub use crate::length::check_length;
use std::fmt;

/// What was wrong. The number of a cause is what a refusal prints.
#[derive(Clone, Copy, PartialEq, Eq, Debug)]
pub enum Cause {
    /// A vector has no antenna, more than 4, or another number of them than the vector beside it. Place: the length of y.
    Antennas = 1,
    /// A component is outside -1023 to 1023. Place: the antenna, from 1.
    Sample = 2,
    /// A weight is above 1023.
    Weight = 3,
    /// A symbol beyond 128, or a turn beyond 4294967295.
    Full = 4,
    /// A shift is above 40.
    Shift = 5,
    /// A number of points, rings or ratios that is not listed.
    Size = 6,
    /// A layer would pass 8 bits or 64 quadrant points.
    Fit = 7,
    /// A bit order is not each of 1 to m once.
    Order = 8,
    /// There is no such symbol.
    Symbol = 9,
    /// A sheet or a list has another length than needed. Place: the needed length.
    Length = 10,
    /// A value is outside -8191 to 8191. Place: its position in the list, from 1.
    Range = 11,
    /// A turn is out.
    Out = 12,
    /// The turn is not the one that is out.
    Foreign = 13,
    /// Position 0, or above m.
    Position = 14,
    /// A file ends inside a section. Place: the file's length.
    Cut = 15,
    /// A field of a file breaks its rule, or bytes follow the end. Place: its offset.
    Field = 16,
}

/// A cause, and the place that it speaks of; 0 where it speaks of none.
// A rule of the project: a refusal is printed as `7 at 0`, so that the 0 is a place like any other and no missing one.
#[derive(Clone, Copy, PartialEq, Eq, Debug)]
pub struct Refusal {
    pub cause: Cause,
    pub place: usize,
}

impl Cause {
    /// The number that a refusal prints.
    pub fn number(self) -> u8
        ensures { result ≡ number_of self }
    {
        self as u8
    }

    /// The refusal for this cause at a place.
    pub fn at(self, place: usize) -> Refusal
        ensures { result ≡ record { cause = self; place = place } }
    {
        Refusal { cause: self, place }
    }
}

/// For instance `16 at 1`.
impl fmt::Display for Refusal {
    ghost output = { λ f. Some (refusal_text f) };

    fn fmt<W: fmt::Write>(&self, f: &mut fmt::Formatter<W>) -> fmt::Result {
        let number = self.cause.number();
        let place = self.place;
        write!(f, "{number} at {place}")
    }
}
