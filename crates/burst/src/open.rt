//! Opening, placing and closing.

ghost use Rattle.std.specs.Prelude.{◌≡◌};
ghost use Rattle.protocol.specs.Placings.{coherent, differential};
ghost use Rattle.runs.specs.Laws.{Laws};
ghost use Rattle.burst.specs.Public.{Opened, open_kept, closed_kept, PlacedBy, ClosedBy};

use crate::burst::{Burst, OpenBurst};
use constellation::Constellation;
use draft::Draft;
use observation::{Sample, Shift};
use refusal::Refusal;
use table::Table;

impl<C: Constellation> OpenBurst<C> {
    /// Opens a burst over a constellation. The caller picks the number.
    pub fn open(c: C, number: u32, shift: u8) -> Result<OpenBurst<C>, Refusal>
    where
        C: Drop,
        ensures { Opened C.Constellation.meaning c number shift result }
    {
        let shift = Shift::try_from(shift)?;
        let draft = Draft::new(number, shift);
        Ok(OpenBurst { c, draft })
    }

    /// Places a symbol coherently: received as `y` over the reference `h`, with a weight.
    #[tactic(auto, using(crate::proofs::Lifting::placed_said))]
    pub fn place(&mut self, y: &[Sample], h: &[Sample], weight: u16) -> Result<(), Refusal>
        ensures placed { PlacedBy (open_kept (C.meaning self.old.c) self.old.draft) (coherent y.now h.now weight) result (open_kept (C.meaning self.old.c) self.new.draft) }
        ensures same { self.new.c ≡ self.old.c }
    {
        self.draft.place(y, h, weight)
    }

    /// Places differentially: the first `y` only is the reference, each later one is a symbol over the one before.
    #[tactic(auto, using(crate::proofs::Lifting::placed_said))]
    pub fn place_differential(&mut self, y: &[Sample], weight: u16) -> Result<(), Refusal>
        ensures placed { PlacedBy (open_kept (C.meaning self.old.c) self.old.draft) (differential y.now weight) result (open_kept (C.meaning self.old.c) self.new.draft) }
        ensures same { self.new.c ≡ self.old.c }
    {
        self.draft.place_differential(y, weight)
    }

    /// Ends placing. All a priori values are 0, and no turn was given out. The laws over whole runs hold from here on, whatever is called.
    pub fn close(self) -> Burst<C>
        ensures closed { ClosedBy (open_kept (C.meaning self.c) self.draft) (closed_kept (C.meaning result.c) result.table) }
        ensures same { result.c ≡ self.c }
        ensures laws { Laws }
    {
        let OpenBurst { c, draft } = self;
        let table = Table::new(draft.records, draft.number, draft.shift);
        Burst { c, table }
    }
}
