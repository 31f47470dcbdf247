//! The extrinsic values of the burst that a file holds.

ghost use Rattle.std.specs.Prelude.{◌≡◌, Err, MatchResult};
ghost use Rattle.burstfile.specs.Values.{read_spec};
ghost use Rattle.reading.specs.Held.{Demapped};

use crate::files::read_burst;
use burstfile::FileRefusal;

// The sheet is lent, and of a fixed size, since nothing is allocated.

/// Writes the extrinsic values of the burst that a file holds in front of the sheet, symbol by symbol.
/// Answers how many symbols there are, and how many positions each has. A refused file leaves the sheet as it was.
pub fn demap(bytes: &[u8], sheet: &mut [i16; 1024]) -> Result<(usize, usize), FileRefusal>
    ensures { MatchResult result (λ p. Demapped (read_spec bytes.now) p.0 p.1 sheet.old sheet.new) (λ e. (read_spec bytes.now ≡ Err e) × (sheet.new ≡ sheet.old)) }
{
    let mut burst = read_burst(bytes, 1)?;
    let symbols = burst.symbols();
    let m = burst.positions();
    let turn = burst.take(&mut sheet[..symbols * m])?;
    burst.withdraw(turn)?;
    Ok((symbols, m))
}
