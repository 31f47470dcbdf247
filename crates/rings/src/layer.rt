//! A layer: copies of the points below.

ghost use Rattle.std.specs.Prelude.{◌≡◌, ◌*◌, ◌<◌, true, length, slice_index_or};
ghost use Rattle.constellation.specs.Meaning.{origin};
ghost use Rattle.constellation.proofs.Points.{good_nth};
ghost use Rattle.rings.specs.LayerLaws.{layered_lawful};
ghost use Rattle.rings.specs.Copies.{plan_of};
ghost use Rattle.rings.specs.Layered.{room};
ghost use Rattle.rings.specs.Made.{Answered, layer_meaning, numbered};

use crate::count::Count;
use crate::kind::Kind;
use constellation::{Constellation, Point, place};
use refusal::{Cause, Refusal};
use std::marker::PhantomData;

/// The copies that a kind of layer makes of the points below.
#[derive(Drop)]
pub struct Layer<C, K> {
    below: C,
    count: Count,
    kind: PhantomData<K>,
}

impl<C: Constellation + Drop, K: Kind + Drop> Layer<C, K> {
    /// The layer of 2 or 4 rings over `below`. Refused: another number of rings, then what would pass 8 bits or 64 quadrant points.
    pub fn new(below: C, number: u32) -> Result<Layer<C, K>, Refusal>
        ensures { Answered (layer_meaning K.Kind.copies C.Constellation.meaning) (C.Constellation.meaning below) (numbered K.Kind.copies number) result }
    {
        let count = Count::new(number).ok_or(Cause::Size.at(0))?;
        let kind = PhantomData;
        let layer = Layer { below, count, kind };
        if !layer.fits() {
            return Err(Cause::Fit.at(0));
        }
        Ok(layer)
    }
}

impl<C: Constellation, K: Kind> Layer<C, K> {
    fn fits(&self) -> bool
        ensures { result ≡ room (plan_of K.Kind.copies self.now.count) (C.Constellation.meaning self.now.below) }
    {
        self.below.m() + self.count.bits() <= 8 && self.all() <= 64
    }

    /// How many points the copies have in all.
    fn all(&self) -> usize
        ensures value { result ≡ length (C.Constellation.meaning self.now.below).points * length (K.Kind.copies self.now.count) }
        ensures where_it_fits { room (plan_of K.Kind.copies self.now.count) (C.Constellation.meaning self.now.below) ≡ true → result ≡ length (layer_meaning K.Kind.copies C.Constellation.meaning self.now).points }
    {
        self.below.size() as usize * K::scales(self.count).len()
    }

    /// The point of an index, from 0: every point below in the first copy, then in the next.
    fn at(&self, index: usize) -> Point
        requires fits { room (plan_of K.Kind.copies self.now.count) (C.Constellation.meaning self.now.below) ≡ true }
        requires within { index < length (C.Constellation.meaning self.now.below).points * length (K.Kind.copies self.now.count) }
        ensures { result ≡ slice_index_or (layer_meaning K.Kind.copies C.Constellation.meaning self.now).points index origin }
    {
        let size = self.below.size() as usize;
        let by = K::copy(self.count, index / size);
        by.lift(self.count.bits(), self.below.point(index % size + 1))
    }
}

// Each method asks again whether the layer fits, and where it would not is that of the one below: so the laws need no invariant of the struct.
impl<C: Constellation, K: Kind> Constellation for Layer<C, K> {
    ghost meaning = { layer_meaning K.Kind.copies C.Constellation.meaning };

    ghost lawful = { λ s. layered_lawful (plan_of K.Kind.copies s.count) (K.Kind.fair s.count) _ (C.Constellation.lawful s.below) };

    ghost good = { λ s n. good_nth _ (layered_lawful (plan_of K.Kind.copies s.count) (K.Kind.fair s.count) _ (C.Constellation.lawful s.below)) n };

    fn m(&self) -> u8 {
        if self.fits() {
            self.below.m() + self.count.bits()
        } else {
            self.below.m()
        }
    }

    fn u(&self) -> u8 {
        self.below.u()
    }

    fn v(&self) -> u8 {
        self.below.v()
    }

    fn size(&self) -> u8 {
        if self.fits() {
            self.all() as u8
        } else {
            self.below.size()
        }
    }

    fn point(&self, number: usize) -> Point {
        if self.fits() {
            self.at(place(number, self.all()))
        } else {
            self.below.point(number)
        }
    }
}
