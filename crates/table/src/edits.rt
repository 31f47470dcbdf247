//! The calls of a table. `m` is the number of positions of a symbol: the constellation says it, which the burst holds, so that
//! a copy of it in the table would have to be tied to the constellation in each clause of the burst.

ghost use Rattle.std.specs.Prelude.{◌≡◌, ◌+◌, ◌<◌, ◌≤◌, length};
ghost use Rattle.arrayvec.specs.ArrayVec.{array_vec_len};
ghost use Rattle.protocol.specs.Verdicts.{inside};
ghost use Rattle.protocol.specs.Calls.{verdict, tell as telling, answer as answering, withdraw as withdrawing, erase as erasing, read as looking, decide as deciding, taking, needed};
ghost use Rattle.table.specs.Kept.{over, view, fresh, outlined, tell_left, answer_left, withdraw_left, erase_left, issued, returned, idle};
ghost use Rattle.std.specs.List.{prefix_len};
ghost use Rattle.observation.specs.Sizes.{measured as fits};

use crate::range::in_range;
use crate::table::Table;
use crate::turn::Turn;
use arrayvec::ArrayVec;
use observation::{Record, Shift};
use refusal::{Cause, Refusal, check_length};

/// Writes the values over the priors from `at` on.
#[tactic(auto, using(crate::proofs::Fronts::put_inside))]
fn put(priors: &mut [i16; 1024], at: usize, values: &[i16])
    requires room { at + length values.now ≤ 1024 }
    requires before { prefix_len inside priors.old ≡ 1024 }
    requires told { prefix_len inside values.now ≡ length values.now }
    ensures value { priors.new ≡ over at values.now priors.old }
    ensures wide { length priors.new ≡ 1024 }
    ensures ranged { prefix_len inside priors.new ≡ 1024 }
{
    priors[at..at + values.len()].copy_from_slice(values);
}

impl Table {
    /// The table of the placed symbols: every a priori value is 0, and no turn was given out.
    pub fn new(records: ArrayVec<Record, 128>, number: u32, shift: Shift) -> Table
        requires few { array_vec_len records ≤ 128 }
        requires sized { prefix_len fits records.items ≡ array_vec_len records }
        ensures { view result ≡ fresh records.items number shift.exponent }
    {
        Table {
            records,
            priors: [0; 1024],
            number,
            shift,
            given: 0,
            out: false,
        }
    }

    /// How many values a sheet has.
    fn needed(&self, m: u8) -> usize
        ensures { result ≡ needed (outlined m (view self.now)) }
    {
        self.records.len() * m as usize
    }

    /// Replaces the values of one symbol, counted from 1.
    pub fn tell(&mut self, m: u8, symbol: usize, values: &[i16]) -> Result<(), Refusal>
        requires { m ≤ 8 }
        ensures reply { result ≡ verdict (outlined m (view self.old)) (telling symbol values.now) }
        ensures left { view self.new ≡ tell_left result m (view self.old) symbol values.now }
    {
        self.check_symbol(symbol)?;
        self.check_idle()?;
        check_length(values.len(), m as usize)?;
        in_range(values)?;
        put(&mut self.priors, (symbol - 1) * m as usize, values);
        Ok(())
    }

    /// Sets the weight in one symbol's record to 0. A rule of the project: that record alone is changed, where it lies.
    pub fn erase(&mut self, symbol: usize) -> Result<(), Refusal>
        ensures reply { result ≡ verdict (outlined 0 (view self.old)) (erasing symbol) }
        ensures left { view self.new ≡ erase_left result (view self.old) symbol }
    {
        self.check_symbol(symbol)?;
        self.check_idle()?;
        self.records[symbol - 1].weight = 0;
        Ok(())
    }

    /// Whether a taking into a sheet of this length is accepted.
    pub fn may_take(&self, m: u8, length: usize) -> Result<(), Refusal>
        ensures { result ≡ verdict (outlined m (view self.now)) (taking length) }
    {
        self.check_idle()?;
        if self.given == u32::MAX {
            return Err(Cause::Full.at(0));
        }
        check_length(length, self.needed(m))
    }

    /// Gives out the next turn.
    pub fn issue(&mut self) -> Turn
        requires { self.old.given < 4294967295 }
        ensures turn { result ≡ record { burst = self.old.number; number = self.old.given + 1 } }
        ensures left { view self.new ≡ issued (view self.old) }
    {
        self.given += 1;
        self.out = true;
        Turn {
            burst: self.number,
            number: self.given,
        }
    }

    /// The turn that was out is out no more.
    fn end_turn(&mut self)
        ensures { view self.new ≡ idle (view self.old) }
    {
        self.out = false;
    }

    /// Whether an answer is accepted.
    fn may_answer(&self, m: u8, turn: &Turn, values: &[i16]) -> Result<(), Refusal>
        ensures { result ≡ verdict (outlined m (view self.now)) (answering turn.now.burst turn.now.number values.now) }
    {
        self.check_turn(turn)?;
        check_length(values.len(), self.needed(m))?;
        in_range(values)
    }

    /// Replaces all a priori values. A refused answer gives the turn back.
    pub fn answer(&mut self, m: u8, turn: Turn, values: &[i16]) -> Result<(), (Turn, Refusal)>
        requires { m ≤ 8 }
        ensures reply { result ≡ returned (verdict (outlined m (view self.old)) (answering turn.burst turn.number values.now)) turn }
        ensures left { view self.new ≡ answer_left (verdict (outlined m (view self.old)) (answering turn.burst turn.number values.now)) (view self.old) values.now }
    {
        if let Err(refusal) = self.may_answer(m, &turn, values) {
            return Err((turn, refusal));
        }
        turn.spend();
        put(&mut self.priors, 0, values);
        self.end_turn();
        Ok(())
    }

    /// Ends the turn and leaves the values. The turn in hand is spent, even where it is refused.
    pub fn withdraw(&mut self, turn: Turn) -> Result<(), Refusal>
        ensures reply { result ≡ verdict (outlined 0 (view self.old)) (withdrawing turn.burst turn.number) }
        ensures left { view self.new ≡ withdraw_left result (view self.old) }
    {
        let reply = self.check_turn(&turn);
        turn.spend();
        reply?;
        self.end_turn();
        Ok(())
    }

    /// Whether a reading of this symbol and position is accepted.
    pub fn may_read(&self, m: u8, symbol: usize, position: usize) -> Result<(), Refusal>
        ensures { result ≡ verdict (outlined m (view self.now)) (looking symbol position) }
    {
        self.check_symbol(symbol)?;
        if !(1..=m as usize).contains(&position) {
            return Err(Cause::Position.at(0));
        }
        Ok(())
    }

    /// Whether hard deciding into memory of this length is accepted.
    pub fn may_decide(&self, m: u8, length: usize) -> Result<(), Refusal>
        ensures { result ≡ verdict (outlined m (view self.now)) (deciding length) }
    {
        check_length(length, self.needed(m))
    }
}
