//! Places symbols into open bursts.

use crate::say::say;
use burst::OpenBurst;
use kinds::psk::Psk;
use observation::Sample;
use std::io;

/// A complex number.
fn at(re: i16, im: i16) -> Sample {
    Sample { re, im }
}

/// Three symbols over known references, and two that are refused.
fn coherent(rt: &HostRuntime, near: &mut OpenBurst<Psk>) -> io::Result<()> {
    let one = near.place(&[at(100, 50)], &[at(100, 0)], 1);
    say(rt, "place 100+50i over 100", one)?;
    let wide = near.place(&[at(7, 7), at(1024, 0)], &[at(100, 0), at(0, 100)], 2);
    say(rt, "place 1024 at antenna 2", wide)?;
    let heavy = near.place(&[at(7, 7)], &[at(100, 0)], 1024);
    say(rt, "place with weight 1024", heavy)?;
    let two = near.place(&[at(-90, 40), at(30, -80)], &[at(100, 0), at(0, 100)], 2);
    say(rt, "place -90+40i and 30-80i over 100 and 100i", two)?;
    let three = near.place(&[at(-60, -70)], &[at(80, 20)], 3);
    say(rt, "place -60-70i over 80+20i", three)
}

/// A reference and two symbols, each over the one before, and one that is refused for its antennas.
fn differential(rt: &HostRuntime, far: &mut OpenBurst<Psk>) -> io::Result<()> {
    let first = far.place_differential(&[at(100, 0)], 1);
    say(rt, "place differentially 100", first)?;
    let two = far.place_differential(&[at(1, 2), at(3, 4)], 1);
    say(rt, "place differentially at two antennas", two)?;
    let second = far.place_differential(&[at(60, 75)], 1);
    say(rt, "place differentially 60+75i", second)?;
    let third = far.place_differential(&[at(-80, 30)], 1);
    say(rt, "place differentially -80+30i", third)
}

/// The symbols of both bursts.
pub fn place_symbols(
    rt: &HostRuntime,
    near: &mut OpenBurst<Psk>,
    far: &mut OpenBurst<Psk>,
) -> io::Result<()> {
    coherent(rt, near)?;
    differential(rt, far)
}
