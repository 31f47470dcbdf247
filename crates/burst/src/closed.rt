//! The calls of a closed burst.

ghost use Rattle.std.specs.Prelude.{◌≡◌};
ghost use Rattle.protocol.specs.Calls.{tell as telling, withdraw as withdrawing, erase as erasing};
ghost use Rattle.burst.specs.Public.{closed_kept, Called, Taken, Answered, Read, Decided};

use crate::burst::Burst;
use constellation::Constellation;
use refusal::Refusal;
use soft::Detector;
use table::Turn;

impl<C: Constellation> Burst<C> {
    /// Replaces the a priori values of one symbol, counted from 1.
    pub fn tell(&mut self, symbol: usize, values: &[i16]) -> Result<(), Refusal>
        ensures told { Called (closed_kept (C.meaning self.old.c) self.old.table) (telling symbol values.now) result (closed_kept (C.meaning self.old.c) self.new.table) }
        ensures same { self.new.c ≡ self.old.c }
    {
        let m = self.c.m();
        self.table.tell(m, symbol, values)
    }

    /// Writes all extrinsic values to a sheet, symbol by symbol, and gives out a turn.
    pub fn take(&mut self, sheet: &mut [i16]) -> Result<Turn, Refusal>
        ensures taken { Taken (closed_kept (C.meaning self.old.c) self.old.table) sheet.old result (closed_kept (C.meaning self.old.c) self.new.table) sheet.new }
        ensures same { self.new.c ≡ self.old.c }
    {
        self.table.may_take(self.c.m(), sheet.len())?;
        Detector::of(&self.c, &self.table).fill(sheet);
        Ok(self.table.issue())
    }

    /// Ends a turn by replacing all a priori values, in the order of a sheet. A refused answer gives the turn back.
    pub fn answer(&mut self, turn: Turn, values: &[i16]) -> Result<(), (Turn, Refusal)>
        ensures answered { Answered (closed_kept (C.meaning self.old.c) self.old.table) turn values.now result (closed_kept (C.meaning self.old.c) self.new.table) }
        ensures same { self.new.c ≡ self.old.c }
    {
        let m = self.c.m();
        self.table.answer(m, turn, values)
    }

    /// Ends a turn and leaves the values. The turn in hand is spent, even where it is refused as foreign.
    #[tactic(auto, using(crate::proofs::Lifting::withdraw_said))]
    pub fn withdraw(&mut self, turn: Turn) -> Result<(), Refusal>
        ensures withdrawn { Called (closed_kept (C.meaning self.old.c) self.old.table) (withdrawing turn.burst turn.number) result (closed_kept (C.meaning self.old.c) self.new.table) }
        ensures same { self.new.c ≡ self.old.c }
    {
        self.table.withdraw(turn)
    }

    /// Erases a symbol: its weight becomes 0.
    pub fn erase(&mut self, symbol: usize) -> Result<(), Refusal>
        ensures erased { Called (closed_kept (C.meaning self.old.c) self.old.table) (erasing symbol) result (closed_kept (C.meaning self.old.c) self.new.table) }
        ensures same { self.new.c ≡ self.old.c }
    {
        self.table.erase(symbol)
    }

    /// The standing a priori value, the extrinsic and the posterior value of a symbol's position, both counted from 1.
    pub fn read(&self, symbol: usize, position: usize) -> Result<(i16, i16, i32), Refusal>
        ensures { Read (closed_kept (C.meaning self.now.c) self.now.table) symbol position result }
    {
        self.table.may_read(self.c.m(), symbol, position)?;
        Ok(Detector::of(&self.c, &self.table).look(symbol, position))
    }

    /// Writes 1 where the posterior value is above 0, else 0, for every symbol and position, symbol by symbol.
    pub fn hard_decide(&self, bits: &mut [u8]) -> Result<(), Refusal>
        ensures { Decided (closed_kept (C.meaning self.now.c) self.now.table) bits.old result bits.new }
    {
        self.table.may_decide(self.c.m(), bits.len())?;
        Detector::of(&self.c, &self.table).decide(bits);
        Ok(())
    }
}
