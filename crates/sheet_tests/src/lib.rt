//! Users of the tables, over their public interface: what a caller knows of its own memory afterwards, and examples that run.

#![tactic(auto)]

ghost use Rattle.std.specs.Prelude.{◌≡◌, ◌*◌, length, replicate, pos};
ghost use Rattle.sheet.specs.Calls.{after, fitting, verdict};
ghost use Rattle.sheet.specs.Order.{deinterleaved};

use refusal::Refusal;
use sheet::Sheet;

/// Deinterleaves `from` into `cells`, a table of three rows.
pub fn fills(columns: usize, cells: &mut [i16], from: &[i16]) -> Result<(), Refusal>
    ensures answer { result ≡ verdict 3 columns (length cells.old) (length from.now) (3 * columns) }
    ensures left { cells.new ≡ after result (deinterleaved 3 columns from.now) cells.old }
{
    let mut sheet = Sheet::over(3, columns, cells);
    sheet.deinterleave(from)
}

/// Makes `cells`, a table of three rows, blank.
pub fn wipes(columns: usize, cells: &mut [i16]) -> Result<(), Refusal>
    ensures answer { result ≡ fitting 3 columns (length cells.old) }
    ensures left { cells.new ≡ after result (replicate (3 * columns) (pos 0)) cells.old }
{
    let mut sheet = Sheet::over(3, columns, cells);
    sheet.wipe()
}

#[cfg(test)]
mod tests {
    use refusal::{Cause, Refusal};
    use sheet::{Sheet, back_and_there, there_and_back};
    use std::test::Fail;

    #[test]
    fn soft_values(rt: HostRuntime) -> Result<(), Fail> {
        let mut cells = [1i16, 2, 3, -4, -32768, 8191];
        let mut out = [0i16; 6];
        let mut bytes = [9u8; 12];
        let mut sheet = Sheet::over(2, 3, &mut cells);
        sheet.interleave(&mut out)?;
        assert!(rt; out == [1, -4, 2, -32768, 3, 8191]);
        sheet.page(&mut bytes)?;
        assert!(rt; bytes == [0, 1, 0, 2, 0, 3, 255, 252, 128, 0, 31, 255]);
        sheet.wipe()?;
        assert!(rt; sheet.cells() == [0, 0, 0, 0, 0, 0].as_slice());
        sheet.deinterleave(&out)?;
        assert!(rt; sheet.cells() == [1, 2, 3, -4, -32768, 8191].as_slice());
        Ok(())
    }

    #[test]
    fn hard_bits(rt: HostRuntime) -> Result<(), Fail> {
        let mut cells = [1u8, 0, 1, 1, 0, 0];
        let mut out = [7u8; 6];
        let mut sheet = Sheet::over(3, 2, &mut cells);
        there_and_back(&mut sheet, &mut out)?;
        assert!(rt; out == [1, 1, 0, 0, 1, 0]);
        sheet.page(&mut out)?;
        assert!(rt; out == [1, 0, 1, 1, 0, 0]);
        sheet.wipe()?;
        back_and_there(&mut sheet, &mut out)?;
        assert!(rt; sheet.cells() == [1, 1, 0, 0, 1, 0].as_slice());
        Ok(())
    }

    #[test]
    fn smallest(rt: HostRuntime) -> Result<(), Fail> {
        let mut none = [0i16; 0];
        let mut one = [-1i16];
        let mut out = [5i16];
        let mut bytes = [9u8; 2];
        let mut sheet = Sheet::over(0, 4096, &mut none);
        sheet.wipe()?;
        sheet.interleave(&mut out[..0])?;
        assert_eq!(rt; sheet.interleave(&mut out), Err(Cause::Length.at(0)));
        let mut sheet = Sheet::over(4096, 0, &mut none);
        sheet.deinterleave(&out[..0])?;
        sheet.page(&mut bytes[..0])?;
        assert_eq!(rt; sheet.page(&mut bytes), Err(Cause::Length.at(0)));
        let sheet = Sheet::over(1, 1, &mut one);
        sheet.interleave(&mut out)?;
        sheet.page(&mut bytes)?;
        assert!(rt; out == [-1]);
        assert!(rt; bytes == [255, 255]);
        Ok(())
    }

    #[test]
    fn too_large(rt: HostRuntime) {
        let mut cells = [3i16; 4];
        let mut bytes = [9u8; 8];
        assert_eq!(rt;
            Sheet::over(4097, 0, &mut cells).wipe(),
            Err(Cause::Length.at(0))
        );
        assert_eq!(rt;
            Sheet::over(0, 4097, &mut cells).page(&mut bytes),
            Err(Cause::Length.at(0))
        );
        assert_eq!(rt;
            Sheet::over(4096, 4096, &mut cells).page(&mut bytes),
            Err(Cause::Length.at(16777216))
        );
        assert!(rt; cells == [3, 3, 3, 3]);
        assert!(rt; bytes == [9, 9, 9, 9, 9, 9, 9, 9]);
    }

    #[test]
    fn wrong_lengths(rt: HostRuntime) {
        for n in 0..8 {
            let mut cells = [3i16; 6];
            let mut other = [4i16; 7];
            let from = [5i16; 7];
            if n != 6 {
                let mut sheet = Sheet::over(2, 3, &mut cells);
                assert_eq!(rt; sheet.interleave(&mut other[..n]), Err(Cause::Length.at(6)));
                assert_eq!(rt; sheet.deinterleave(&from[..n]), Err(Cause::Length.at(6)));
                assert!(rt; cells == [3, 3, 3, 3, 3, 3]);
                assert!(rt; other == [4, 4, 4, 4, 4, 4, 4]);
            }
        }
    }

    #[test]
    fn wrong_pages(rt: HostRuntime) {
        for n in 10..14 {
            let mut cells = [3i16; 6];
            let mut bytes = [9u8; 13];
            if n != 12 {
                let sheet = Sheet::over(2, 3, &mut cells);
                assert_eq!(rt; sheet.page(&mut bytes[..n]), Err(Cause::Length.at(12)));
                assert!(rt; bytes == [9, 9, 9, 9, 9, 9, 9, 9, 9, 9, 9, 9, 9]);
            }
        }
        let mut cells = [3i16; 5];
        let mut bytes = [9u8; 13];
        assert_eq!(rt;
            Sheet::over(2, 3, &mut cells).page(&mut bytes),
            Err(Cause::Length.at(6))
        );
    }
}
