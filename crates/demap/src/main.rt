//! Prints the extrinsic values of the burst file on standard input: how many symbols there are and how many positions each has,
//! then a line for each symbol, its number from 1 and its values. A refused file prints its refusal.

#![tactic(auto)]

use reading::demap;
use refusal::Cause;
use std::io;
use std::io::Read;

/// The most bytes that are read.
const LONGEST: usize = 16384;

/// One line a symbol: the sheet has `m` values of each.
fn show(rt: &impl Print, sheet: &[i16], symbols: usize, m: usize) -> io::Result<()> {
    println!(rt; "{symbols} {m}")?;
    // `m` is 2 to 8; `max` tells the check that it is not 0.
    for (number, values) in (1..=symbols).zip(sheet.chunks_exact(m.max(1))) {
        show_symbol(rt, number, values)?;
    }
    Ok(())
}

/// A symbol's number and its values.
fn show_symbol(rt: &impl Print, number: usize, values: &[i16]) -> io::Result<()> {
    print!(rt; "{number}")?;
    for value in values {
        print!(rt; " {value}")?;
    }
    println!(rt; "")
}

/// A file that is longer than any burst's is refused as bytes after the longest one's end.
fn main(rt: HostRuntime) -> io::Result<()> {
    let mut bytes = Vec::new(rt.alloc());
    rt.stdin().take(LONGEST as u64 + 1).read_to_end(&mut bytes)?;
    if bytes.len() > LONGEST {
        let refusal = Cause::Field.at(LONGEST);
        return println!(rt; "refused {refusal}");
    }
    let mut sheet = [0; 1024];
    match demap(&bytes, &mut sheet) {
        Ok((symbols, m)) => show(&rt, &sheet, symbols, m),
        Err(refusal) => println!(rt; "{refusal}"),
    }
}
