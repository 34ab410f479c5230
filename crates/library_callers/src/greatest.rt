// A caller of nf_curve and nf_load.
ghost use Rattle.std.specs.Prelude.{◌≡◌, fold, IfOk};
ghost use Rattle.nf_rational.specs.Operations.{0ℚ};
ghost use Rattle.nf_rational.specs.Order.{◌≤ℚ◌};
ghost use Rattle.nf_frac_def.specs.declared.Part.TheVariants.{Load};
ghost use Rattle.nf_frac_def.specs.Passing.{passes_Q};
ghost use Rattle.nf_frac_def.specs.Checked.{at_part, Gives};
ghost use Rattle.nf_model.specs.Curve.{IsGreatest, value};
ghost use Rattle.nf_model_laws.specs.Capacity.{IsPositive};
ghost use Rattle.library_callers.specs.Greatest.{IsInflow, both, IsGreatestQueue, taller, checked_greatest, checked_greatest_queue};

use nf_curve::{Curve, Point};
use nf_frac::{Halt, Part, PassedAt, Q};
use nf_load::load_link;
use std::alloc::Global;

// Returns the greater of a value and that of a point, if the point's time is at most `last`.
fn with_point(so_far: Q, point: &Point, last: Q) -> Q
    ensures { result ≡ taller last so_far point.now }
{
    if point.0.is_at_most(last) {
        so_far.greater(point.1)
    } else {
        so_far
    }
}

// Returns the greatest of `end` and the values of the points up to `last`.
fn greatest_point(points: &[Point], last: Q, end: Q) -> Q
    ensures { result ≡ fold (taller last) end points.now }
{
    let mut greatest = end;
    for point in points {
        greatest = with_point(greatest, point, last);
    }
    greatest
}

// Returns the greatest value of a curve at the times from 0 to `last`.
#[tactic(auto, unfolding(crate::specs::Greatest::checked_greatest))]
fn greatest_value(curve: &Curve, last: Q) -> Result<Q, PassedAt<Q>>
    requires { 0ℚ ≤ℚ last }
    ensures list { result ≡ at_part Load (checked_greatest passes_Q curve.now.points last) }
    ensures greatest { IfOk result (λ y. IsGreatest (value curve.now.points) 0ℚ last y) }
{
    // Proof: the points are a curve.
    curve.recall();
    let end = curve.value(last, Part::Load)?;
    Ok(greatest_point(curve.as_points(), last, end))
}

/// Returns the greatest queue, an amount, at the times from 0 to `until`, on a link that two inflows enter. Each inflow is an amount by
/// time, is 0 at time 0 and never falls. The capacity is an amount per unit of time above 0; `None` means unbounded. No time is negative.
/// The result is the queue at one of these times, and no queue at any of them is greater. Returns `Passed` exactly at the first operation
/// of `checked_greatest_queue` that passes, with part Load, and `Memory` only if an allocation fails.
#[tactic(auto, unfolding(crate::specs::Greatest::checked_greatest_queue))]
pub fn greatest_queue(
    alloc: Global,
    transit: Q,
    capacity: Option<Q>,
    first: &Curve,
    second: &Curve,
    until: Q,
) -> Result<Q, Halt<Q>>
    requires transit { 0ℚ ≤ℚ transit }
    requires capacity { IsPositive capacity }
    requires first { IsInflow first.now.points }
    requires second { IsInflow second.now.points }
    requires until { 0ℚ ≤ℚ until }
    ensures list { Gives (λ y. y) (λ q. q) result
        (at_part Load (checked_greatest_queue passes_Q transit capacity first.now.points
        second.now.points until)) }
    ensures greatest { IfOk result
        (λ y. IsGreatestQueue capacity (both first.now.points second.now.points) until y) }
{
    let inflow = Curve::sum(alloc, first, second, Part::Load)?;
    let loaded = load_link(alloc, transit, capacity, &inflow, until)?;
    let greatest = greatest_value(&loaded.queue, until)?;
    Ok(greatest)
}
