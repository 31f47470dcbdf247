//! What the calls of a table are refused for.

ghost use Rattle.std.specs.Prelude.{◌≡◌, ◌≤◌, not, OnOk};
ghost use Rattle.arrayvec.specs.ArrayVec.{array_vec_len};
ghost use Rattle.refusal.specs.declared.Cause.TheVariants.{Symbol as NoSymbol, Out, Foreign as NotOurs};
ghost use Rattle.protocol.specs.Verdicts.{need as allow, accepted, up_to};
ghost use Rattle.protocol.specs.Calls.{ours};
ghost use Rattle.table.specs.Kept.{outlined, view};

use crate::table::Table;
use crate::turn::Turn;
use refusal::{Cause, Refusal};

impl Table {
    /// Refused where there is no such symbol, counted from 1.
    pub(crate) fn check_symbol(&self, symbol: usize) -> Result<(), Refusal>
        ensures reply { result ≡ allow (up_to (array_vec_len self.now.records) symbol) NoSymbol 0 accepted }
        ensures within { OnOk result ((1 ≤ symbol) × (symbol ≤ array_vec_len self.now.records)) }
    {
        if !(1..=self.records.len()).contains(&symbol) {
            return Err(Cause::Symbol.at(0));
        }
        Ok(())
    }

    /// Refused while a turn is out.
    pub(crate) fn check_idle(&self) -> Result<(), Refusal>
        ensures { result ≡ allow (not self.now.out) Out 0 accepted }
    {
        if self.out {
            return Err(Cause::Out.at(0));
        }
        Ok(())
    }

    /// Refused where this is not the turn that is out. Its numbers are compared one by one: a turn made to compare with would
    /// have to be spent too.
    pub(crate) fn check_turn(&self, turn: &Turn) -> Result<(), Refusal>
        ensures { result ≡ allow (ours (outlined 0 (view self.now)) turn.now.burst turn.now.number) NotOurs 0 accepted }
    {
        let owned = self.out && turn.burst == self.number && turn.number == self.given;
        if !owned {
            return Err(Cause::Foreign.at(0));
        }
        Ok(())
    }
}
