// The sum of two curves.
ghost use Rattle.std.specs.Prelude.{◌≡◌};
ghost use Rattle.nf_frac_def.specs.Passing.{passes_Q};
ghost use Rattle.nf_frac_def.specs.Checked.{at_part, Gives};
ghost use Rattle.nf_model.specs.Curve.{IsCurve};
ghost use Rattle.nf_curve_def.specs.Sums.{sum_at as sum_by, checked_sum};
ghost use Rattle.nf_curve.specs.Moments.{IsMoment};
ghost use Rattle.nf_curve.specs.Slopes.{KeepBoth};

use crate::lines::Point;
use crate::walk::{KeptSlopes, Moment, first_moment, next_moment, sides_with};
use nf_frac::{Halt, Part, PassedAt, Q, at};
use std::alloc::Global;

// Returns the point of the sum at the current time of the merge.
fn sum_at(
    left: &[Point],
    right: &[Point],
    now: &Moment,
    kept: &mut KeptSlopes,
    part: Part,
) -> Result<Point, PassedAt<Q>>
    requires left { IsCurve left.now }
    requires right { IsCurve right.now }
    requires there { IsMoment left.now right.now now.now }
    requires kept { KeepBoth left.now right.now kept.old }
    ensures point { result ≡ at_part part (sum_by passes_Q left.now right.now now.now.time) }
    ensures kept { KeepBoth left.now right.now kept.new }
{
    let sides = sides_with(left, right, now, kept, part)?;
    let value = at!(part, sides.left.sum(sides.right));
    Ok((now.time, value))
}

/// Returns the points of the sum of two curves, one at each time of either curve.
pub(crate) fn sum_points(
    alloc: Global,
    left: &[Point],
    right: &[Point],
    part: Part,
) -> Result<Vec<Point>, Halt<Q>>
    requires left { IsCurve left.now }
    requires right { IsCurve right.now }
    ensures { Gives (λ points. points.items) (λ q. q) result
        (at_part part (checked_sum passes_Q left.now right.now)) }
{
    let mut points = Vec::with_capacity(alloc, left.len() + right.len())?;
    let mut kept = KeptSlopes::none();
    let mut now = Some(first_moment(left, right));
    while let Some(moment) = now {
        let point = sum_at(left, right, &moment, &mut kept, part)?;
        points.push(point)?;
        now = next_moment(left, right, &moment);
    }
    Ok(points)
}
