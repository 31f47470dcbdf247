//! The best metric of each half label, in a bucket each.

ghost use Rattle.std.specs.Prelude.{◌≡◌, ◌<◌, ◌≤◌, true, false, replicate, unsigned_abs};
ghost use Rattle.detect.specs.Tops.{lowest, Held, Filled, Filled-prop};
ghost use Rattle.detect.specs.Buckets.{over_codes, noted_by};

/// Below every metric: what stands for no metric yet.
// A rule of the project: bests are plain numbers, so that a low number stands for none, in the buckets as in the pairs.
pub const LOWEST: i64 = -2305843009213693952;

/// The best metric so far of each half label.
// A bucket for each of the 16 half labels, whatever m is: nothing is allocated, and a half label finds its bucket by itself.
#[derive(Clone, Copy)]
pub struct Halves {
    pub best: [i64; 16],
    pub ghost filled: { Filled best } by { Filled-prop best },
}

impl Halves {
    /// Over no point.
    pub fn none() -> Halves
        ensures { result.best ≡ replicate 16 lowest }
    {
        Halves { best: [LOWEST; 16] }
    }

    /// Notes a metric in the bucket of a half label.
    pub fn note(&mut self, half: u8, metric: i64)
        requires half { half < 16 }
        requires within { unsigned_abs metric ≤ 2305843009213693952 }
        ensures { self.new.best ≡ noted_by self.old.best half metric }
    {
        let bucket = &mut self.best[half as usize];
        *bucket = (*bucket).max(metric);
    }

    /// The best of the half labels whose bit, counted from 0, the least significant, is 1, and of those whose bit is 0.
    pub fn over_bit(&self, bit: u8) -> (i64, i64)
        requires { bit < 4 }
        ensures value { result ≡ (over_codes bit true self.now.best 16, over_codes bit false self.now.best 16) }
        ensures held { Held result }
    {
        let mut one = LOWEST;
        let mut zero = LOWEST;
        for (half, best) in self.best.iter().enumerate() {
            if (half >> bit) % 2 == 1 {
                one = one.max(*best);
            } else {
                zero = zero.max(*best);
            }
        }
        (one, zero)
    }
}
