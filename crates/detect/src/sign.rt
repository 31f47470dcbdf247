//! The best at 1 and at 0 of a sign's position. A rule of the project: such a pair is two plain numbers, with no type of its own.

ghost use Rattle.std.specs.Prelude.{◌≡◌};
ghost use Rattle.detect.specs.Tops.{Held, Bounded, raised_by};

/// The pair after a quadrant point is offered to it: the sign turns `turn`, the other one `cross`.
pub fn raised(pair: (i64, i64), base: i64, turn: i64, cross: i64) -> (i64, i64)
    requires { (Held pair) × (Bounded base turn cross) }
    ensures value { result ≡ raised_by pair base turn cross }
    ensures held { Held result }
{
    let (one, zero) = pair;
    let reach = base + cross.abs();
    (one.max(reach - turn), zero.max(reach + turn))
}
