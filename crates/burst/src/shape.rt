//! The shape of a closed burst's sheets.

ghost use Rattle.std.specs.Prelude.{◌≡◌, length};
ghost use Rattle.burst.specs.Public.{closed_kept};

use crate::burst::Burst;
use constellation::Constellation;

impl<C: Constellation> Burst<C> {
    /// How many symbols there are, 0 to 128.
    pub fn symbols(&self) -> usize
        ensures { result ≡ length (closed_kept (C.meaning self.now.c) self.now.table).symbols }
    {
        self.table.records.len()
    }

    /// How many positions each symbol has, 2 to 8.
    pub fn positions(&self) -> usize
        ensures { result ≡ (C.meaning self.now.c).m }
    {
        self.c.m() as usize
    }
}
