//! The second burst: what is told of one position moves the extrinsic values of the others.

use crate::say::{say, say_value};
use burst::Burst;
use kinds::psk::Psk;
use std::io;

/// The values of symbol 1.
fn say_symbol(rt: &HostRuntime, far: &Burst<Psk>) -> io::Result<()> {
    say_value(rt, far, 1, 1)?;
    say_value(rt, far, 1, 2)?;
    say_value(rt, far, 1, 3)
}

/// Reads symbol 1 before and after its last position is told.
pub fn far_burst(rt: &HostRuntime, far: &mut Burst<Psk>) -> io::Result<()> {
    say_symbol(rt, far)?;
    say(rt, "tell symbol 1 0 0 -1500", far.tell(1, &[0, 0, -1500]))?;
    say_symbol(rt, far)
}
