//! The bytes of a table.

ghost use Rattle.std.specs.Prelude.{◌≡◌, ◌*◌, length, Ok};
ghost use Rattle.std.specs.List.{flat_map};
ghost use Rattle.sheet.specs.Bytes.{read_back};

use crate::element::Element;
use refusal::Refusal;

/// Writes the bytes of every element, one element after another.
pub(crate) fn bytes<T: Element>(cells: &[T], out: &mut [u8]) -> Result<(), Refusal>
    requires room { length out.old ≡ length cells.now * T.WIDTH }
    ensures answer { result ≡ Ok tt }
    ensures told { out.new ≡ flat_map T.coded cells.now }
    ensures back { read_back T.WIDTH T.decoded (length cells.now) out.new ≡ cells.now }
{
    // `chunks_exact_mut` was tried: a proof knows nothing of bytes that are written through it, and `WIDTH` may be 0.
    for (i, cell) in cells.iter().enumerate() {
        let at = i * T::WIDTH;
        cell.put(&mut out[at..at + T::WIDTH])?;
    }
    Ok(())
}
