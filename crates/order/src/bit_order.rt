//! A bit order as a list: for each new position, the old position whose bit it carries.

ghost use Rattle.std.specs.Prelude.{◌≡◌, ◌==◌, ◌<◌, ◌≤◌, true, false, length, position as index_where, MatchOption};
ghost use Rattle.constellation.specs.Ordered.{reorder, position, each, whole, fresh, permutes, relabel};

use constellation::{Point, bit_at};

/// A list that has each of 1 to its length once: the order of the bits of a label of so many bits.
#[derive(Clone, Copy)]
pub struct BitOrder<'a> {
    list: &'a [u8],
    ghost short: { length list.now ≤ 8 },
    ghost once: { permutes (length list.now) list.now ≡ true },
}

// The tests below run on a list that may be no order yet. Its length is asked of each, since an array vector, which would say it,
// hides its bound from proofs. They go by number and by place, as what makes a list an order is said by those.

/// The index at which q stands first.
fn index_of(list: &[u8], q: u8) -> Option<usize>
    ensures { result ≡ index_where (λ p. p == q) list.now }
{
    list.iter().position(|p| *p == q)
}

/// Where q stands first, counted from 1; past the end where it does not.
fn find(list: &[u8], q: u8) -> u8
    requires { length list.now ≤ 8 }
    ensures { result ≡ position q list.now }
{
    index_of(list, q).unwrap_or(list.len()) as u8 + 1
}

/// Each of 1 to the list's length stands in it.
fn has_all(list: &[u8]) -> bool
    requires { length list.now ≤ 8 }
    ensures { result ≡ whole (length list.now) list.now }
{
    let m = list.len() as u8;
    (0..m).all(|k| find(list, k + 1) <= m)
}

/// Place j holds one of 1 to the list's length, for the first time.
fn is_fresh(list: &[u8], j: usize) -> bool
    requires { (length list.now ≤ 8) × (j < length list.now) }
    ensures { result ≡ fresh (length list.now) list.now j }
{
    let p = list[j];
    1 <= p && p as usize <= list.len() && find(list, p) as usize == j + 1
}

fn all_fresh(list: &[u8]) -> bool
    requires { length list.now ≤ 8 }
    ensures { result ≡ each (fresh (length list.now) list.now) (length list.now) }
{
    (0..list.len()).all(|j| is_fresh(list, j))
}

impl<'a> BitOrder<'a> {
    /// The order that a list is, where it has each of 1 to its length once.
    pub fn new(list: &'a [u8]) -> Option<BitOrder<'a>>
        requires { length list.now ≤ 8 }
        ensures { MatchOption result (permutes (length list.now) list.now ≡ false) (λ order. order.list.now ≡ list.now) }
    {
        if has_all(list) && all_fresh(list) {
            Some(BitOrder { list })
        } else {
            None
        }
    }

    /// How many bits it orders.
    pub fn m(&self) -> u8
        ensures { result ≡ length self.now.list.now }
    {
        self.list.len() as u8
    }

    /// Where the bit of an old position stands now, counted from 1.
    pub fn position(&self, old: u8) -> u8
        ensures { result ≡ position old self.now.list.now }
    {
        find(self.list, old)
    }

    /// The label whose position j has the bit that stood at the j-th listed position.
    #[tactic(auto, using(crate::proofs::Loops::listed_least, crate::proofs::Loops::listed_most, crate::proofs::Loops::reorder_more, crate::proofs::Loops::reorder_room))]
    fn reorder(&self, label: u8) -> u8
        ensures { result ≡ reorder (length self.now.list.now) self.now.list.now label }
    {
        let m = self.m();
        let mut r = 0;
        for p in self.list {
            r = r * 2 + bit_at(m, *p, label);
        }
        r
    }

    /// The point with the bits of its label in the new order.
    pub fn relabel(&self, p: Point) -> Point
        ensures { result ≡ relabel (length self.now.list.now) self.now.list.now p }
    {
        Point {
            label: self.reorder(p.label),
            ..p
        }
    }
}
