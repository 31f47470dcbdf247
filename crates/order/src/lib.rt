//! A layer over any constellation: the bits of the label in another order.

#![tactic(auto)]

mod bit_order;

ghost use Rattle.std.specs.Prelude.{◌≡◌, true, false, cond, MatchOption};
ghost use Rattle.constellation.proofs.OrderLaws.{arranged_lawful};
ghost use Rattle.constellation.proofs.Points.{good_nth};
ghost use Rattle.constellation.specs.Ordered.{position, permutes};
ghost use Rattle.order.specs.Once.{TestStands};
ghost use Rattle.order.specs.OrderMade.{Ordering, order_meaning};

use crate::bit_order::BitOrder;
use arrayvec::ArrayVec;
use constellation::{Constellation, Point};
use refusal::{Cause, Refusal};

/// A constellation with its bits in another order: position j carries the bit that stood at the j-th listed position below.
#[derive(Drop)]
pub struct Order<C> {
    below: C,
    list: ArrayVec<u8, 8>,
}

impl<C: Constellation + Drop> Order<C> {
    /// The bit order over `below`. Refused: a list that is not each of 1 to m once.
    pub fn new(below: C, list: &[u8]) -> Result<Order<C>, Refusal>
        ensures { Ordering C.Constellation.meaning below list.now result }
    {
        let refused = Cause::Order.at(0);
        let list = ArrayVec::try_from(list).or(Err(refused))?;
        let made = Order { below, list };
        if made.order().is_none() {
            return Err(refused);
        }
        Ok(made)
    }
}

impl<C: Constellation> Order<C> {
    /// The order that the list is; where it is none for the bits below, the meaning is the one below.
    fn order(&self) -> Option<BitOrder<'_>>
        ensures { MatchOption result (permutes (C.Constellation.meaning self.now.below).m self.now.list.items ≡ false) (λ order. (permutes (C.Constellation.meaning self.now.below).m self.now.list.items ≡ true) × (order.list.now ≡ self.now.list.items)) }
    {
        BitOrder::new(self.list.as_slice()).filter(|order| order.m() == self.below.m())
    }

    /// Where the bit of a position below stands.
    fn position(&self, below: u8) -> u8
        ensures { result ≡ cond (permutes (C.Constellation.meaning self.now.below).m self.now.list.items) (position below self.now.list.items) below }
    {
        self.order().map_or(below, |order| order.position(below))
    }
}

impl<C: Constellation> Constellation for Order<C> {
    ghost meaning = { order_meaning C.Constellation.meaning };

    ghost lawful = { λ s. arranged_lawful s.list.items _ (C.Constellation.lawful s.below) };

    ghost good = { λ s n. good_nth _ (arranged_lawful s.list.items _ (C.Constellation.lawful s.below)) n };

    fn m(&self) -> u8 {
        self.below.m()
    }

    fn u(&self) -> u8 {
        self.position(self.below.u())
    }

    fn v(&self) -> u8 {
        self.position(self.below.v())
    }

    fn size(&self) -> u8 {
        self.below.size()
    }

    fn point(&self, number: usize) -> Point {
        let p = self.below.point(number);
        self.order().map_or(p, |order| order.relabel(p))
    }
}

/// The test of a bit order passes exactly where the list is each of 1 to m once.
pub fn test_stands()
    ensures { TestStands }
{}
