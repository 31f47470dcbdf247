//! The terms of a doubled metric: what no sign turns, and what a sign turns.

ghost use Rattle.std.specs.Prelude.{◌≡◌, ◌≤◌, pos, ◌+ℤ◌, ◌*ℤ◌, unsigned_abs};
ghost use Rattle.detect.specs.Parts.{middle, turn, Turning, Basing};

use observation::Record;

/// What one coordinate's sign turns, of its a priori value too.
pub fn turned(weight: i64, coordinate: u16, matched: i32, scale: i64, prior: i16) -> i64
    requires { Turning weight coordinate matched scale prior }
    ensures value { result ≡ turn weight coordinate scale matched prior }
    ensures small { unsigned_abs result ≤ 152700000000000000 }
{
    4096 * weight * (coordinate as i64) * (matched as i64) - scale * (prior as i64)
}

/// 2^20·|y|² and the rest of a distance.
fn farther(y_energy: u32, rest: i64) -> i64
    requires { (y_energy ≤ 8372232) × (unsigned_abs rest ≤ 280788335427600) }
    ensures value { result ≡ pos 1048576 *ℤ pos y_energy +ℤ rest }
    ensures small { unsigned_abs result ≤ 289567256969232 }
{
    1048576 * (y_energy as i64) + rest
}

/// The part of a doubled metric that no sign turns: `priors` is the label's a priori sum.
pub fn based(weight: i64, x: u16, y: u16, observed: &Record, scale: i64, priors: i64) -> i64
    requires { Basing weight x y observed.now scale priors }
    ensures value { result ≡ middle weight x y observed.now.y_energy observed.now.h_energy scale priors }
    ensures small { unsigned_abs result ≤ 736600000000000000 }
{
    let x = x as i64;
    let y = y as i64;
    2 * scale * priors
        - 2 * weight
            * farther(
                observed.y_energy,
                (x * x + y * y) * (observed.h_energy as i64),
            )
}
