//! Which point a number asks for.

ghost use Rattle.std.specs.Prelude.{◌≡◌, ◌<◌, ◌≤◌};
ghost use Rattle.constellation.specs.Meaning.{place as place_of};

/// The index, from 0, of the point of a number, counted from 1, among `size` points: 0 asks for the first, a number past the end for the last.
pub fn place(number: usize, size: usize) -> usize
    ensures value { result ≡ place_of number size }
    ensures within { 1 ≤ size → result < size }
{
    number.saturating_sub(1).min(size.saturating_sub(1))
}
