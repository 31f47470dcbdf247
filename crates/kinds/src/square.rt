//! Square QAM: 16, 64 or 256 points on a grid of evenly spaced coordinates.

ghost use Rattle.std.specs.Prelude.{◌≡◌, ◌<◌, length, slice_index_or};
ghost use Rattle.constellation.specs.Meaning.{origin};
ghost use Rattle.kinds.specs.Squares.{square_meaning, square_of, step_of, half_of, side_of, magnitude_of, on_grid, grid};
ghost use Rattle.kinds.specs.KindLaws.{square_lawful};
ghost use Rattle.constellation.proofs.Points.{good_nth};

use crate::IMAGINARY_SIGN;
use constellation::{Constellation, Point, gray, place};
use refusal::{Cause, Refusal};

#[derive(Clone, Copy, PartialEq, Eq, Debug)]
pub enum Square {
    Sixteen,
    SixtyFour,
    TwoFiftySix,
}

impl Square {
    /// Square QAM with this number of points.
    pub fn new(points: u32) -> Result<Square, Refusal>
        ensures { result ≡ square_of points }
    {
        match points {
            16 => Ok(Square::Sixteen),
            64 => Ok(Square::SixtyFour),
            256 => Ok(Square::TwoFiftySix),
            _ => Err(Cause::Size.at(0)),
        }
    }

    /// The smallest magnitude, half the distance of neighbours.
    fn step(self) -> u16
        ensures { result ≡ step_of self }
    {
        match self {
            Square::Sixteen => 324,
            Square::SixtyFour => 158,
            Square::TwoFiftySix => 79,
        }
    }

    /// The bits of an axis: its sign, and the index of the magnitude.
    fn half(self) -> u8
        ensures { result ≡ half_of self }
    {
        match self {
            Square::Sixteen => 2,
            Square::SixtyFour => 3,
            Square::TwoFiftySix => 4,
        }
    }

    /// The magnitude of an index, from 0, the outermost first.
    fn magnitude(self, index: u8) -> u16
        requires { index < side_of self }
        ensures { result ≡ magnitude_of self index }
    {
        let outermost = (1 << self.half()) - 1;
        (outermost - 2 * index as u16) * self.step()
    }

    /// The quadrant point of an imaginary and a real index.
    fn on_grid(self, imaginary: u8, real: u8) -> Point
        requires { (imaginary < side_of self) × (real < side_of self) }
        ensures { result ≡ on_grid self imaginary real }
    {
        Point {
            x: self.magnitude(real),
            y: self.magnitude(imaginary),
            e: 1 << 20,
            label: (gray(imaginary) << self.half()) + gray(real),
        }
    }

    /// The quadrant point of an index, from 0: the bits of the imaginary index, then those of the real one.
    #[tactic(auto, using(crate::proofs::Grid::found_there))]
    fn at(self, index: u8) -> Point
        requires { index < length (grid self) }
        ensures { result ≡ slice_index_or (grid self) index origin }
    {
        let index_bits = self.half() - 1;
        self.on_grid(index >> index_bits, index & ((1 << index_bits) - 1))
    }
}

impl Constellation for Square {
    ghost meaning = { square_meaning };

    ghost lawful = { λ k. square_lawful k };

    ghost good = { λ k n. good_nth _ (square_lawful k) n };

    fn m(&self) -> u8 {
        2 * self.half()
    }

    fn u(&self) -> u8 {
        IMAGINARY_SIGN
    }

    fn v(&self) -> u8 {
        self.half() + 1
    }

    fn size(&self) -> u8 {
        match self {
            Square::Sixteen => 4,
            Square::SixtyFour => 16,
            Square::TwoFiftySix => 64,
        }
    }

    #[tactic(auto, using(crate::proofs::Grid::some_point))]
    fn point(&self, number: usize) -> Point {
        self.at(place(number, self.size() as usize) as u8)
    }
}
