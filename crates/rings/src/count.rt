//! How many rings a layer counts with.

ghost use Rattle.std.specs.Prelude.{◌≡◌, ◌≤◌};
ghost use Rattle.rings.specs.Copies.{count_of, rings_in, bits};

/// A number of rings, on them or at their ratios.
#[derive(Clone, Copy)]
pub enum Count {
    Two = 2,
    Four = 4,
}

impl Count {
    /// 2 or 4, and no other number.
    // An Option and no `TryFrom`: a layer's `new` makes the refusal, and an error type in between would be no plainer.
    pub fn new(number: u32) -> Option<Count>
        ensures { result ≡ count_of number }
    {
        match number {
            2 => Some(Count::Two),
            4 => Some(Count::Four),
            _ => None,
        }
    }

    /// The number.
    pub fn number(self) -> u8
        ensures { result ≡ rings_in self }
    {
        self as u8
    }

    /// The bits that so many codes take.
    pub fn bits(self) -> u8
        ensures value { result ≡ bits self }
        ensures small { result ≤ 2 }
    {
        match self {
            Count::Two => 1,
            Count::Four => 2,
        }
    }
}
