// Amounts that a route sends on.
ghost use Rattle.std.specs.Prelude.{◌≡◌, ◌∷◌, List, map, IfOk, IfSome};
ghost use Rattle.nf_rational.specs.Rational.{ℚ};
ghost use Rattle.nf_rational.specs.Operations.{0ℚ};
ghost use Rattle.nf_frac_def.specs.Passing.{passes_Q};
ghost use Rattle.nf_frac_def.specs.declared.Part.TheVariants.{Load};
ghost use Rattle.nf_frac_def.specs.Checked.{at_part, seen_at, each, Gives};
ghost use Rattle.nf_model.specs.Curve.{IsCurve};
ghost use Rattle.nf_curve_def.specs.Times.{both_times};
ghost use Rattle.nf_curve_def.specs.Sums.{sides_at as sides_by};
ghost use Rattle.nf_curve.specs.Moments.{IsMoment};
ghost use Rattle.nf_curve.specs.Sides.{sides_of};
ghost use Rattle.nf_routes_def.specs.RoutesList.{next_from, next_entry as next_by};
ghost use Rattle.nf_routes_laws.specs.Laws.{CanShare, IsSentOn};
ghost use Rattle.nf_routes_links.specs.Amounts.{IsAmountCurve, AreExits};
ghost use Rattle.nf_routes_links.specs.Points.{right_point, AreKnown, AreThere};

use crate::points::{first_from, value_there};
use nf_curve::{Curve, Moment, Point, Sides, first_moment, next_moment, sides_at};
use nf_frac::{Halt, Part, PassedAt, Q};
use std::alloc::{AllocError, Global};

// Returns both values at a moment, if the left curve has a point there, and the right value is known by the point of this number.
fn sides_there(left: &[Point], known: &[Point], moment: &Moment, place: usize) -> Option<Sides>
    ensures { IfSome result
        (λ sides. AreThere left.now known.now moment.now.time (sides_of sides)) }
{
    if moment.left == 0 {
        return None;
    }
    let entered = value_there(left, moment.left - 1, moment.time)?;
    let exit = value_there(known, place, moment.time)?;
    Some(Sides {
        time: moment.time,
        left: entered,
        right: exit,
    })
}

// Returns both values at a moment. They are not computed if they are those of points.
fn sides_near(
    left: &[Point],
    right: &[Point],
    known: &[Point],
    moment: &Moment,
    place: usize,
) -> Result<Sides, PassedAt<Q>>
    requires left { IsCurve left.now }
    requires right { IsCurve right.now }
    requires known { AreKnown right.now known.now }
    requires there { IsMoment left.now right.now moment.now }
    ensures { seen_at sides_of (λ q. q) result
        ≡ at_part Load (sides_by passes_Q left.now right.now moment.now.time) }
{
    match sides_there(left, known, moment, place) {
        Some(sides) => Ok(sides),
        None => sides_at(left, right, moment, Part::Load),
    }
}

// Returns both values at each time of two curves. `known` holds points of the right one.
fn all_sides(
    alloc: Global,
    left: &[Point],
    right: &[Point],
    known: &[Point],
) -> Result<Vec<Sides>, Halt<Q>>
    requires left { IsCurve left.now }
    requires right { IsCurve right.now }
    requires known { AreKnown right.now known.now }
    ensures { Gives (λ sides. map sides_of sides.items) (λ q. q) result
        (at_part Load
        (each (sides_by passes_Q left.now right.now) (both_times left.now right.now))) }
{
    let mut all = Vec::with_capacity(alloc, left.len() + right.len())?;
    let mut place = 0;
    let mut now = Some(first_moment(left, right));
    while let Some(moment) = now {
        place = first_from(known, place, moment.time);
        let sides = sides_near(left, right, known, &moment, place)?;
        all.push(sides)?;
        now = next_moment(left, right, &moment);
    }
    Ok(all)
}

// Returns the right values as points.
fn right_points(alloc: Global, all: &[Sides]) -> Result<Vec<Point>, AllocError>
    ensures { IfOk result (λ points. points.items ≡ map right_point (map sides_of all.now)) }
{
    let mut points = Vec::with_capacity(alloc, all.len())?;
    for sides in all {
        points.push((sides.time, sides.right))?;
    }
    Ok(points)
}

// Keeps the exits at these times in place of the known ones, if they are more than twice as many.
fn keep_exits(alloc: Global, all: &[Sides], known: &mut Vec<Point>) -> Result<(), AllocError>
    ensures { (exit : List (ℚ × ℚ)) → AreKnown exit (map right_point (map sides_of all.now))
        → AreKnown exit known.old.items → AreKnown exit known.new.items }
{
    if all.len() / 2 <= known.len() {
        return Ok(());
    }
    let exits = right_points(alloc, all)?;
    *known = exits;
    Ok(())
}

// Returns the amount entered by each exit. The first point is (0, 0). Each exit that differs from the one before adds a point.
fn next_points(alloc: Global, all: &[Sides]) -> Result<Vec<Point>, AllocError>
    ensures { IfOk result
        (λ points. points.items ≡ (0ℚ, 0ℚ) ∷ next_from 0ℚ (map sides_of all.now)) }
{
    let mut points = Vec::with_capacity(alloc, all.len() + 1)?;
    let mut last = Q::zero();
    points.push((last, Q::zero()))?;
    for sides in all {
        if !last.is_same(sides.right) {
            points.push((sides.right, sides.left))?;
            last = sides.right;
        }
    }
    Ok(points)
}

/// Returns the amount that a route has sent into its next link by each time, in short form. After the last link of a route, this is the
/// amount that has arrived. `exit` holds the exits of the link by the time of entry. `entry` holds the amount that the route has sent into
/// the link. `known` holds exits that were computed, and they are not computed again. The route has sent on the amount of each entry by the
/// exit of that entry. If exits are constant on an interval, no flow enters there, and the first entry of the interval determines the
/// point. Returns `Passed` exactly at the first operation of its operation sequence that passes, with part Load.
pub(crate) fn next_entry(
    alloc: Global,
    exit: &Curve,
    known: &mut Vec<Point>,
    entry: &Curve,
) -> Result<Curve, Halt<Q>>
    requires exits { AreExits exit.now.points }
    requires known { AreKnown exit.now.points known.old.items }
    requires amount { IsAmountCurve entry.now.points }
    ensures list { Gives (λ c. c.points) (λ q. q) result
        (at_part Load (next_by passes_Q exit.now.points entry.now.points)) }
    ensures known { AreKnown exit.now.points known.new.items }
    ensures amount { IfOk result (λ c. IsAmountCurve c.points) }
    ensures next { (last : ℚ) → CanShare exit.now.points entry.now.points last
        → IfOk result (λ c. IsSentOn exit.now.points entry.now.points last c.points) }
{
    let sides = all_sides(alloc, entry.as_points(), exit.as_points(), known.as_slice())?;
    keep_exits(alloc, &sides, known)?;
    let points = next_points(alloc, &sides)?;
    let curve = Curve::of_points(points);
    Curve::short(alloc, &curve, Part::Load)
}
