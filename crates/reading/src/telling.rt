//! Tells the symbols of a burst the a priori values of a file.

ghost use Rattle.std.specs.Prelude.{◌≡◌, ◌+◌, ◌*◌, ◌^◌, ◌<◌, ◌≤◌, false, length, take, drop, Ok};
ghost use Rattle.std.specs.List.{prefix_len};
ghost use Rattle.protocol.specs.Verdicts.{inside};
ghost use Rattle.reading.specs.Held.{told_all};
ghost use Rattle.catalogue.specs.Modes.{catalogue_meaning};
ghost use Rattle.protocol.specs.Calls.{tell as telling};
ghost use Rattle.burst.specs.Public.{closed_kept, Called};
ghost use Rattle.burstfile.specs.Reading.{signeds_of};

use arrayvec::ArrayVec;
use burst::Burst;
use burstfile::value;
use catalogue::Catalogue;
use refusal::Refusal;

/// The values of a symbol.
#[tactic(auto, using(crate::proofs::Filling::values_more, crate::proofs::Filling::values_end))]
fn row(priors: &[u8]) -> ArrayVec<i16, 8>
    requires { length priors.now ≤ 16 }
    ensures { result.items ≡ signeds_of priors.now }
{
    let mut values = ArrayVec::new();
    for bytes in priors.chunks_exact(2) {
        values.push(value(bytes));
    }
    values
}

/// Tells the symbol at `i`, from 0, its values.
fn tell_symbol(burst: &mut Burst<Catalogue>, i: usize, priors: &[u8]) -> Result<(), Refusal>
    requires i { i + 1 < 2 ^ 64 }
    requires few { length priors.now ≤ 16 }
    ensures told { Called (closed_kept (catalogue_meaning burst.old.c) burst.old.table) (telling (i + 1) (signeds_of priors.now)) result (closed_kept (catalogue_meaning burst.old.c) burst.new.table) }
    ensures same { burst.new.c ≡ burst.old.c }
{
    burst.tell(i + 1, &row(priors))
}

// That a burst has at most 128 symbols of at most 8 bits each is asked here and told by what makes one: a ghost field of `Burst`
// would name its constellation's meaning wherever the type stands.

/// Tells every symbol its m values; where the file has none, all stay as they are. None is refused.
#[tactic(auto, using(crate::proofs::Spreading::told_start, crate::proofs::Chunks::chunks_start))]
pub fn tell_all(burst: &mut Burst<Catalogue>, priors: &[u8]) -> Result<(), Refusal>
    requires few { (catalogue_meaning burst.old.c).m ≤ 8 }
    requires count { length (closed_kept (catalogue_meaning burst.old.c) burst.old.table).symbols ≤ 128 }
    requires idle { burst.old.table.out ≡ false }
    requires sized { 0 < length priors.now → length priors.now ≡ 2 * (length (closed_kept (catalogue_meaning burst.old.c) burst.old.table).symbols * (catalogue_meaning burst.old.c).m) }
    requires ranged { prefix_len inside (signeds_of priors.now) ≡ length (signeds_of priors.now) }
    ensures accepted { result ≡ Ok tt }
    ensures told { closed_kept (catalogue_meaning burst.old.c) burst.new.table ≡ told_all (closed_kept (catalogue_meaning burst.old.c) burst.old.table) (signeds_of priors.now) }
    ensures same { burst.new.c ≡ burst.old.c }
{
    if priors.is_empty() {
        return Ok(());
    }
    let m = burst.positions();
    for (i, bytes) in priors.chunks_exact(2 * m).enumerate() {
        tell_symbol(burst, i, bytes)?;
    }
    Ok(())
}
