//! Phase-shift keying: 4, 8 or 16 points on one circle.

ghost use Rattle.std.specs.Prelude.{◌≡◌, map};
ghost use Rattle.kinds.specs.Psks.{psk_meaning, psk_of, on_circle, circle};
ghost use Rattle.kinds.specs.KindLaws.{psk_lawful};
ghost use Rattle.constellation.proofs.Points.{good_nth};

use crate::IMAGINARY_SIGN;
use constellation::{Constellation, Point, gray, place};
use refusal::{Cause, Refusal};

#[derive(Clone, Copy, PartialEq, Eq, Debug)]
pub enum Psk {
    Four,
    Eight,
    Sixteen,
}

impl Psk {
    /// PSK with this number of points.
    pub fn new(points: u32) -> Result<Psk, Refusal>
        ensures { result ≡ psk_of points }
    {
        match points {
            4 => Ok(Psk::Four),
            8 => Ok(Psk::Eight),
            16 => Ok(Psk::Sixteen),
            _ => Err(Cause::Size.at(0)),
        }
    }

    /// The coordinates of the quadrant points, from the real axis on.
    fn coordinates(self) -> &'static [(u16, u16)]
        ensures { result.now ≡ map (λ p. (p.x, p.y)) (circle self) }
    {
        match self {
            Psk::Four => &[(724, 724)],
            Psk::Eight => &[(946, 392), (392, 946)],
            Psk::Sixteen => &[(1004, 200), (851, 569), (569, 851), (200, 1004)],
        }
    }
}

/// The quadrant point of an index, from 0, at these coordinates.
fn on_circle(index: u8, x: u16, y: u16) -> Point
    ensures { result ≡ on_circle index x y }
{
    Point {
        x,
        y,
        e: 1 << 20,
        label: gray(index),
    }
}

impl Constellation for Psk {
    ghost meaning = { psk_meaning };

    ghost lawful = { λ k. psk_lawful k };

    ghost good = { λ k n. good_nth _ (psk_lawful k) n };

    fn m(&self) -> u8 {
        match self {
            Psk::Four => 2,
            Psk::Eight => 3,
            Psk::Sixteen => 4,
        }
    }

    fn u(&self) -> u8 {
        IMAGINARY_SIGN
    }

    fn v(&self) -> u8 {
        IMAGINARY_SIGN + 1
    }

    fn size(&self) -> u8 {
        self.coordinates().len() as u8
    }

    fn point(&self, number: usize) -> Point {
        let coordinates = self.coordinates();
        let index = place(number, coordinates.len());
        let (x, y) = coordinates[index];
        on_circle(index as u8, x, y)
    }
}
