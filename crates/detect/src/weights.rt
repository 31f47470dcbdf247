//! The weight of a point's distance.

ghost use Rattle.std.specs.Prelude.{◌≡◌, ◌≤◌, pos};
ghost use Rattle.detect.specs.Parts.{weight};

/// W: a symbol's weight over the point's noise energy, in units of 1/2^20.
pub fn weighed(symbol_weight: u16, noise: u32) -> i64
    requires { (symbol_weight ≤ 1023) × (1048576 ≤ noise) }
    ensures value { result ≡ pos (weight symbol_weight noise) }
    ensures small { weight symbol_weight noise ≤ 1023 }
{
    if noise == 1048576 {
        symbol_weight as i64
    } else {
        ((symbol_weight as u64 * 1048576) / noise as u64) as i64
    }
}
