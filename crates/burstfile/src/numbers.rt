//! The signed numbers of a file, and the range of its a priori values.

ghost use Rattle.std.specs.Prelude.{◌≡◌, ◌+◌, ◌-◌, ◌*◌, ◌/◌, ◌<◌, ◌≤◌, length, take, drop, pos, Some, None, IfSome, MatchOption, MatchResult, slice_index, slice_index_or, position};
ghost use Rattle.std.specs.Simd.{first_chunks};
ghost use Rattle.burstfile.specs.Reading.{signed_of, signeds_of, pair_of, pairs_of};
ghost use Rattle.burstfile.specs.Values.{priors_fault, InsideTo, FirstOutside, is_outside};

use refusal::{Cause, Refusal};

/// The largest size of an a priori value.
// Crate table has the same bound, over numbers that it is told; here it is tested over a file's bytes, before a burst is there.
const LARGEST: u16 = 8191;

/// The number that the bytes begin with.
pub fn value(bytes: &[u8]) -> i16
    requires { 2 ≤ length bytes.now }
    ensures { result ≡ signed_of (slice_index bytes.now 0) (slice_index bytes.now 1) }
{
    i16::from_be_bytes([bytes[0], bytes[1]])
}

/// The real and the imaginary part of the pair that the bytes begin with.
pub fn pair(bytes: &[u8]) -> (i16, i16)
    requires { 4 ≤ length bytes.now }
    ensures re { result.0 ≡ signed_of (slice_index bytes.now 0) (slice_index bytes.now 1) }
    ensures im { result.1 ≡ signed_of (slice_index bytes.now 2) (slice_index bytes.now 3) }
{
    (value(bytes), value(&bytes[2..]))
}

/// The part at `k`, from 0, of bytes in parts of equal size.
pub fn part(bytes: &[u8], k: usize, size: usize) -> &[u8]
    requires { k * size + size ≤ length bytes.now }
    ensures value { result.now ≡ take size (drop (k * size) bytes.now) }
    ensures long { length result.now ≡ size }
{
    &bytes[k * size..][..size]
}

// A number and a pair by place stay two functions: one over both would take what reads a part, and be no plainer than its call.
// Each, as `value`, `pair` and `part`, asks that what it reads lies within the bytes, as an index asks it of a slice.

/// The number at `k`, from 0.
pub fn value_at(values: &[u8], k: usize) -> i16
    requires { k * 2 + 2 ≤ length values.now }
    ensures { result ≡ slice_index_or (signeds_of values.now) k (pos 0) }
{
    value(part(values, k, 2))
}

/// The pair at `k`, from 0.
pub fn pair_at(pairs: &[u8], k: usize) -> (i16, i16)
    requires { k * 4 + 4 ≤ length pairs.now }
    ensures { pair_of result.0 result.1 ≡ slice_index_or (pairs_of pairs.now) k (pair_of (pos 0) (pos 0)) }
{
    pair(part(pairs, k, 4))
}

/// How many values come before the first outside -8191 to 8191, if there is one.
fn inside_before(priors: &[u8]) -> Option<usize>
    ensures first { result ≡ position is_outside (first_chunks 2 (length priors.now / 2) priors.now) }
    ensures fits { IfSome result (λ before. before < length priors.now) }
{
    let (values, _odd) = priors.as_chunks::<2>();
    values
        .iter()
        .position(|bytes| value(bytes).unsigned_abs() > LARGEST)
}

/// The position, from 1, of the first a priori value outside -8191 to 8191.
#[tactic(auto, using(crate::proofs::Walks::position_none, crate::proofs::Walks::position_some))]
pub fn first_outside(priors: &[u8]) -> Option<usize>
    ensures { MatchOption result (InsideTo priors.now (length priors.now / 2)) (λ p. FirstOutside priors.now (p - 1) × (1 ≤ p)) }
{
    let before = inside_before(priors)?;
    Some(before + 1)
}

/// Refuses the first a priori value outside -8191 to 8191, at its position from 1.
pub fn check_priors(priors: &[u8]) -> Result<(), Refusal>
    ensures { MatchResult result (λ _. priors_fault 1 (signeds_of priors.now) ≡ None) (λ e. priors_fault 1 (signeds_of priors.now) ≡ Some e) }
{
    match first_outside(priors) {
        Some(position) => Err(Cause::Range.at(position)),
        None => Ok(()),
    }
}
