//! Prints calls and replies, a line each.

use burst::Burst;
use kinds::psk::Psk;
use refusal::Refusal;
use std::io;

/// A call and its reply.
pub fn say(rt: &HostRuntime, call: &str, reply: Result<(), Refusal>) -> io::Result<()> {
    match reply {
        Ok(()) => println!(rt; "{call}: done"),
        Err(refusal) => println!(rt; "{call}: refused {refusal}"),
    }
}

/// A closing, and how many symbols and positions there are.
pub fn say_positions(rt: &HostRuntime, call: &str, burst: &Burst<Psk>) -> io::Result<()> {
    let symbols = burst.symbols();
    let positions = burst.positions();
    println!(rt; "{call}: {symbols} symbols of {positions} positions")
}

/// The three values of a symbol's position.
pub fn say_value(
    rt: &HostRuntime,
    burst: &Burst<Psk>,
    symbol: usize,
    position: usize,
) -> io::Result<()> {
    match burst.read(symbol, position) {
        Ok((a, e, p)) => println!(rt;
            "read symbol {symbol} position {position}: a priori {a}, extrinsic {e}, posterior {p}"
        ),
        Err(refusal) => println!(rt; "read symbol {symbol} position {position}: refused {refusal}"),
    }
}
