//! Takes a burst's extrinsic values, interleaves them in a table of four rows and three columns, deinterleaves them again and pages them.

#![tactic(auto)]

ghost use Rattle.std.specs.Prelude.{◌≡◌, Ok};
ghost use Rattle.std.specs.List.{flat_map};
ghost use Rattle.sheet.specs.Bytes.{word16, bytes16};
ghost use Rattle.sheet.specs.Order.{interleaved};

use reading::demap;
use refusal::Refusal;
use sheet::{Sheet, there_and_back};
use std::io;

/// Writes the interleaved `values` into `out` and their bytes into `bytes`. The values come back from `out` as they were.
fn spread(values: &mut [i16], out: &mut [i16], bytes: &mut [u8]) -> Result<(), Refusal>
    ensures kept { values.new ≡ values.old }
    ensures order { result ≡ Ok tt → out.new ≡ interleaved 4 3 values.old }
    ensures paper { result ≡ Ok tt → bytes.new ≡ flat_map (λ x. bytes16 (word16 x)) values.old }
{
    let mut sheet = Sheet::over(4, 3, values);
    there_and_back(&mut sheet, out)?;
    sheet.page(bytes)
}

/// A burst file: PSK 8, shift 24, one antenna, four symbols of weight 1, no a priori values.
const FILE: [u8; 48] = [
    2, 2, 24, 1, 0, 4, 0, 1, 0, 100, 0, 50, 0, 100, 0, 0, 0, 1, 255, 166, 0, 40, 0, 100, 0, 0, 0,
    1, 0, 30, 255, 176, 0, 100, 0, 0, 0, 1, 255, 196, 255, 186, 0, 80, 0, 20, 0, 0,
];

fn main(rt: HostRuntime) -> io::Result<()> {
    let mut soft = [0i16; 1024];
    match demap(&FILE, &mut soft) {
        Ok((symbols, m)) => println!(rt; "a burst of {symbols} symbols of {m} positions")?,
        Err(refusal) => return println!(rt; "{refusal}"),
    }
    let values = &mut soft[..12];
    let mut out = [0i16; 12];
    let mut bytes = [0u8; 24];
    println!(rt; "extrinsic values {values:?}")?;
    if let Err(refusal) = spread(values, &mut out, &mut bytes) {
        return println!(rt; "refused {refusal}");
    }
    println!(rt; "interleaved {out:?}")?;
    println!(rt; "back {values:?}")?;
    println!(rt; "bytes {bytes:?}")
}
