//! The exhaustive detector over any constellation, in mathematics: what the values are (`specs`), and theorems on them.
//! Each function here states one theorem in its contract, and does nothing.

#![tactic(auto)]

ghost use Rattle.metric.specs.Exhaustive.{Answers};
ghost use Rattle.metric.specs.Reduced.{Reduces, SameValue};
ghost use Rattle.metric.specs.Bounds.{Independent, Bounded};
ghost use Rattle.metric.specs.Orders.{Moves};
ghost use Rattle.metric.specs.ValueLaws.{Exists, Within, Silent, Steady, Moved};

/// Over quadrant points alone, with doubled metrics, the largest metric is twice the one over all points, at each value of each bit.
pub fn reduced_way_stands()
    ensures { Reduces }
{}

/// So the extrinsic value found over quadrant points alone is the one found over all points, rounding and clip included.
pub fn reduced_value_stands()
    ensures { SameValue }
{}

/// Where some point has the bit 1 and some point has it 0, the bit has an extrinsic value.
pub fn answer_stands()
    ensures { Answers }
{}

/// A bit's extrinsic value does not depend on that bit's a priori value.
pub fn independence_stands()
    ensures { Independent }
{}

/// Two extrinsic values of a bit differ by at most the sum of the differences of the other bits' a priori values.
pub fn bound_stands()
    ensures { Bounded }
{}

/// With the labels' bits in another order, and the a priori values with them, each extrinsic value moves with its bit.
pub fn order_stands()
    ensures { Moves }
{}

/// Over a lawful constellation every position has an extrinsic value.
pub fn value_exists()
    ensures { Exists }
{}

/// The value handed out is from -8191 to 8191, whatever arrives.
pub fn value_within()
    ensures { Within }
{}

/// Two lists of a priori values that differ at one position at most have the same value there.
pub fn value_silent()
    ensures { Silent }
{}

/// The values of a position at two lists of a priori values differ by at most the sum of the lists' differences at the other positions.
pub fn value_steady()
    ensures { Steady }
{}

/// A reordered constellation at reordered a priori values has the same values, reordered: extrinsic, posterior and hard.
pub fn value_moved()
    ensures { Moved }
{}
