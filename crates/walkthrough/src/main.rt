//! Plays two bursts through their public calls and prints each call with its reply.
// The handle and the bursts are passed apart: a struct of them would be lent whole where a function speaks of one burst alone.

#![tactic(auto)]

mod far;
mod placing;
mod say;
mod turns;

use crate::far::far_burst;
use crate::placing::place_symbols;
use crate::say::{say, say_positions, say_value};
use crate::turns::{answered_turn, foreign_turn};
use burst::{Burst, OpenBurst};
use kinds::psk::Psk;
use std::io;

/// A shift above 40 opens nothing.
fn refused_opening(rt: &HostRuntime) -> io::Result<()> {
    let reply = OpenBurst::open(Psk::Four, 1, 41).map(|_| ());
    say(rt, "open burst 1 over PSK 4 with shift 41", reply)
}

/// What is told before any turn is taken.
fn tell_first(rt: &HostRuntime, near: &mut Burst<Psk>) -> io::Result<()> {
    say(rt, "tell symbol 2 300 -200", near.tell(2, &[300, -200]))?;
    say(rt, "tell symbol 9 300 -200", near.tell(9, &[300, -200]))?;
    say(rt, "tell symbol 2 three values", near.tell(2, &[1, 2, 3]))?;
    say(rt, "tell symbol 2 300 8192", near.tell(2, &[300, 8192]))
}

/// Hard bits of all symbols, and memory that is too small for them.
fn decide(rt: &HostRuntime, near: &Burst<Psk>) -> io::Result<()> {
    let mut few = [0u8; 5];
    say(rt, "decide into 5 bits", near.hard_decide(&mut few))?;
    let mut bits = [0u8; 6];
    say(rt, "decide into 6 bits", near.hard_decide(&mut bits))?;
    println!(rt; "  bits {bits:?}")
}

/// The closed burst: told, taken and answered, read, erased, taken and withdrawn, decided.
fn play(rt: &HostRuntime, near: &mut Burst<Psk>, far: &mut Burst<Psk>) -> io::Result<()> {
    tell_first(rt, near)?;
    answered_turn(rt, near)?;
    say_value(rt, near, 2, 1)?;
    say_value(rt, near, 2, 3)?;
    say(rt, "erase symbol 3", near.erase(3))?;
    say(rt, "erase symbol 4", near.erase(4))?;
    foreign_turn(rt, near, far)?;
    decide(rt, near)?;
    far_burst(rt, far)
}

/// Places the symbols of both bursts, closes them and plays.
fn place_and_play(
    rt: &HostRuntime,
    mut near: OpenBurst<Psk>,
    mut far: OpenBurst<Psk>,
) -> io::Result<()> {
    say(rt, "open burst 2 over PSK 8 with shift 24", Ok(()))?;
    place_symbols(rt, &mut near, &mut far)?;
    let mut near = near.close();
    let mut far = far.close();
    say_positions(rt, "close burst 1", &near)?;
    say_positions(rt, "close burst 2", &far)?;
    play(rt, &mut near, &mut far)
}

/// Opens the second burst beside the first.
fn open_second(rt: &HostRuntime, near: OpenBurst<Psk>) -> io::Result<()> {
    say(rt, "open burst 1 over PSK 4 with shift 24", Ok(()))?;
    match OpenBurst::open(Psk::Eight, 2, 24) {
        Ok(far) => place_and_play(rt, near, far),
        Err(refusal) => say(rt, "open burst 2", Err(refusal)),
    }
}

fn main(rt: HostRuntime) -> io::Result<()> {
    refused_opening(&rt)?;
    match OpenBurst::open(Psk::Four, 1, 24) {
        Ok(near) => open_second(&rt, near),
        Err(refusal) => say(&rt, "open burst 1", Err(refusal)),
    }
}
