//! Bits of labels.

ghost use Rattle.std.specs.Prelude.{◌≡◌, ◌<◌, ◌≤◌};
ghost use Rattle.constellation.specs.Gray.{gray as gray_of};
ghost use Rattle.constellation.specs.Meaning.{bit};

/// Bit j of a label of m bits, counted from 1, the most significant.
pub fn bit_at(m: u8, j: u8, label: u8) -> u8
    requires { (j ≤ m) × ((1 ≤ j) × (m ≤ 8)) }
    ensures value { result ≡ bit m j label }
    ensures small { result < 2 }
{
    (label >> (m - j)) % 2
}

/// The code in which neighbours differ in one bit.
#[tactic(auto, using(crate::proofs::Codes::gray_small))]
pub fn gray(number: u8) -> u8
    ensures code { result ≡ gray_of number }
    ensures small { number < 8 → result < 8 }
{
    number ^ (number >> 1)
}
