// A caller of nf_curve.
ghost use Rattle.std.specs.Prelude.{IfOk, MatchBool};
ghost use Rattle.nf_rational.specs.Operations.{0ℚ};
ghost use Rattle.nf_rational.specs.Order.{◌≤ℚ◌};
ghost use Rattle.library_callers.specs.Below.{IsBelow};

use nf_curve::Curve;
use nf_frac::{Halt, Part, Q};
use std::alloc::Global;

/// Returns whether a curve is at most another at every time up to `until`, which must be at least 0. Fails if an operation passes the
/// bound, or if an allocation fails.
pub fn stays_below(alloc: Global, lower: &Curve, upper: &Curve, until: Q) -> Result<bool, Halt<Q>>
    requires { 0ℚ ≤ℚ until }
    ensures { IfOk result
        (λ below. MatchBool below (IsBelow lower.now.points upper.now.points until)
        (¬ IsBelow lower.now.points upper.now.points until)) }
{
    let least = Curve::least(alloc, lower, upper, Part::Curve)?;
    match Curve::first_difference(&least, lower, until, Part::Curve)? {
        Some(_) => Ok(false),
        None => Ok(true),
    }
}
