//! The catalogue: one type for the ten constellations that a burst file can name.

#![tactic(auto)]

ghost use Rattle.constellation.proofs.Points.{good_nth};
ghost use Rattle.catalogue.specs.CatalogueLaws.{catalogue_lawful};
ghost use Rattle.catalogue.specs.Modes.{mode_meaning, catalogue_meaning, Offered};

use constellation::{Constellation, Point};
use kinds::psk::Psk;
use kinds::square::Square;
use rings::{Ratios, Rings};

#[derive(Drop)]
pub enum Catalogue {
    Psk(Psk),
    Square(Square),
    Rings(Rings<Psk>),
    Ratios(Ratios<Psk>),
}

impl Catalogue {
    /// The constellation of a mode, 1 to 10.
    // A byte, as this is the public way in from one; a type of modes, which the file's crate has, would be no plainer here.
    pub fn of_mode(mode: u8) -> Option<Catalogue>
        ensures { Offered (mode_meaning mode) result }
    {
        match mode {
            1 => Some(Catalogue::Psk(Psk::Four)),
            2 => Some(Catalogue::Psk(Psk::Eight)),
            3 => Some(Catalogue::Psk(Psk::Sixteen)),
            4 => Some(Catalogue::Square(Square::Sixteen)),
            5 => Some(Catalogue::Square(Square::SixtyFour)),
            6 => Some(Catalogue::Square(Square::TwoFiftySix)),
            7 => Rings::new(Psk::Eight, 2).ok().map(Catalogue::Rings),
            8 => Rings::new(Psk::Sixteen, 4).ok().map(Catalogue::Rings),
            9 => Ratios::new(Psk::Eight, 2).ok().map(Catalogue::Ratios),
            10 => Ratios::new(Psk::Sixteen, 4).ok().map(Catalogue::Ratios),
            _ => None,
        }
    }
}

/// The same of each constellation, whichever of the four it is.
macro_rules! of_each {
    ($of:expr, $c:ident => $what:expr) => {
        match $of {
            Catalogue::Psk($c) => $what,
            Catalogue::Square($c) => $what,
            Catalogue::Rings($c) => $what,
            Catalogue::Ratios($c) => $what,
        }
    };
}

impl Constellation for Catalogue {
    ghost meaning = { catalogue_meaning };

    ghost lawful = { λ c. catalogue_lawful c };

    ghost good = { λ c n. good_nth _ (catalogue_lawful c) n };

    fn m(&self) -> u8 {
        of_each!(self, c => c.m())
    }

    fn u(&self) -> u8 {
        of_each!(self, c => c.u())
    }

    fn v(&self) -> u8 {
        of_each!(self, c => c.v())
    }

    fn size(&self) -> u8 {
        of_each!(self, c => c.size())
    }

    fn point(&self, number: usize) -> Point {
        of_each!(self, c => c.point(number))
    }
}
