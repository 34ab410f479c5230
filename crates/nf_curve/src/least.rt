// The pointwise minimum of two curves.
ghost use Rattle.std.specs.Prelude.{◌≡◌, ◌++◌, Ok};
ghost use Rattle.std.specs.Option.{option_to_list};
ghost use Rattle.nf_rational.specs.Order.{◌<ℚ◌};
ghost use Rattle.nf_frac_def.specs.Passing.{passes_Q};
ghost use Rattle.nf_frac_def.specs.Checked.{at_part, seen_at, Gives};
ghost use Rattle.nf_model.specs.Curve.{IsCurve};
ghost use Rattle.nf_curve_def.specs.Least.{is_crossed as is_crossed_by, least_point as least_by, crossing as crossing_by, checked_least};
ghost use Rattle.nf_curve.specs.Sides.{sides_of};
ghost use Rattle.nf_curve.specs.Steps.{lesser_step};

use crate::lines::{Point, Sides, crossing_time, line};
use crate::walk::{KeptSlopes, first_moment, next_moment, sides_with};
use nf_frac::{Halt, Part, PassedAt, Q};
use std::alloc::Global;

// Returns whether the curve that was below the other at `before` is above it at `now`.
fn is_crossed(before: &Sides, now: &Sides) -> bool
    ensures { result ≡ is_crossed_by (sides_of before.now) (sides_of now.now) }
{
    before.left.is_below(before.right) && now.right.is_below(now.left)
        || before.right.is_below(before.left) && now.left.is_below(now.right)
}

// Returns the point of the minimum at a time.
fn least_point(sides: &Sides) -> Point
    ensures { result ≡ least_by (sides_of sides.now) }
{
    (sides.time, sides.left.lesser(sides.right))
}

// Returns the point at which the curves cross between two successive times, if they do.
fn crossing(before: &Sides, now: &Sides, part: Part) -> Result<Option<Point>, PassedAt<Q>>
    requires { before.now.time <ℚ now.now.time }
    ensures { seen_at option_to_list (λ q. q) result ≡ at_part part
        (crossing_by passes_Q (is_crossed_by (sides_of before.now) (sides_of now.now))
        (sides_of before.now) (sides_of now.now)) }
{
    if !is_crossed(before, now) {
        return Ok(None);
    }
    let time = crossing_time(before, now, part)?;
    let from = (before.time, before.left);
    let to = (now.time, now.left);
    let value = line(&from, &to, time, part)?;
    Ok(Some((time, value)))
}

// Appends the crossing between two successive times, if there is one, and the point at the second time.
fn add_points(
    points: &mut Vec<Point>,
    before: &Sides,
    now: &Sides,
    part: Part,
) -> Result<(), Halt<Q>>
    requires { before.now.time <ℚ now.now.time }
    ensures { Gives (λ _. points.new.items) (λ q. q) result
        (at_part part
        (lesser_step passes_Q points.old.items (sides_of before.now) (sides_of now.now))) }
{
    if let Some(point) = crossing(before, now, part)? {
        points.push(point)?;
    }
    points.push(least_point(now))?;
    Ok(())
}

/// Returns the points of the pointwise minimum of two curves: one at each time of either, and one at each crossing between.
pub(crate) fn least_points(
    alloc: Global,
    left: &[Point],
    right: &[Point],
    part: Part,
) -> Result<Vec<Point>, Halt<Q>>
    requires left { IsCurve left.now }
    requires right { IsCurve right.now }
    ensures { Gives (λ points. points.items) (λ q. q) result
        (at_part part (checked_least passes_Q left.now right.now)) }
{
    let mut kept = KeptSlopes::none();
    let first = first_moment(left, right);
    let mut before = sides_with(left, right, &first, &mut kept, part)?;
    let mut points = Vec::with_capacity(alloc, left.len() + right.len())?;
    points.push(least_point(&before))?;
    let mut now = next_moment(left, right, &first);
    while let Some(moment) = now {
        let sides = sides_with(left, right, &moment, &mut kept, part)?;
        add_points(&mut points, &before, &sides, part)?;
        before = sides;
        now = next_moment(left, right, &moment);
    }
    Ok(points)
}
