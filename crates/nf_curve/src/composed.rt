// The composition of two curves.
ghost use Rattle.std.specs.Prelude.{◌≡◌, ◌≢◌, ℕ, [], ◌∷◌, ◌++◌, reverse, slice_get, Some, IfOk};
ghost use Rattle.std.specs.List.{filter};
ghost use Rattle.nf_rational.specs.Rational.{ℚ};
ghost use Rattle.nf_rational.specs.Operations.{0ℚ};
ghost use Rattle.nf_rational.specs.Order.{◌≤ℚ◌, ◌<ℚ◌, lt_ℚ};
ghost use Rattle.nf_frac_def.specs.Passing.{passes_Q};
ghost use Rattle.nf_frac_def.specs.Checked.{at_part, each, Gives};
ghost use Rattle.nf_model.specs.Curve.{IsCurve, Within, value};
ghost use Rattle.nf_curve_def.specs.Composed.{corner_at as corner_by, points_along, composed_piece, composed_all, checked_composed};
ghost use Rattle.nf_curve.specs.Places.{count_until};
ghost use Rattle.nf_curve.specs.Steps.{behind};
ghost use Rattle.nf_curve.specs.Slopes.{KeepsSlope};

use crate::cut::{cut_points, ends_at};
use crate::lines::{Point, inverse};
use crate::places::{place_near, place_up};
use crate::values::{PieceSlope, value_with};
use nf_frac::{Halt, Part, PassedAt, Q};
use std::alloc::Global;

// Returns the point of the composition where the inner piece from `p` to `q` has the time of an outer point as its value.
fn corner_at(p: &Point, q: &Point, corner: &Point, part: Part) -> Result<Point, PassedAt<Q>>
    requires later { p.now.0 <ℚ q.now.0 }
    requires apart { p.now.1 ≢ q.now.1 }
    ensures { result ≡ at_part part (corner_by passes_Q p.now q.now corner.now) }
{
    let time = inverse(p, q, corner.0, part)?;
    Ok((time, corner.1))
}

// Appends the point where the piece reaches an outer point, if the time of that outer point is below `bound`.
fn add_corner_below(
    composed: &mut Vec<Point>,
    corner: &Point,
    bound: Q,
    p: &Point,
    q: &Point,
    part: Part,
) -> Result<(), Halt<Q>>
    requires later { p.now.0 <ℚ q.now.0 }
    requires apart { p.now.1 ≢ q.now.1 }
    ensures { Gives (λ _. composed.new.items) (λ q. q) result
        (at_part part
        (behind composed.old.items
        (each (corner_by passes_Q p.now q.now) (filter (λ c. lt_ℚ c.0 bound) (corner.now ∷ []))))) }
{
    if !corner.0.is_below(bound) {
        return Ok(());
    }
    let point = corner_at(p, q, corner, part)?;
    composed.push(point)?;
    Ok(())
}

// Appends the points where an increasing piece reaches the outer points `between`, except an outer point at the piece's end value.
fn add_corners_up(
    composed: &mut Vec<Point>,
    between: &[Point],
    p: &Point,
    q: &Point,
    part: Part,
) -> Result<(), Halt<Q>>
    requires later { p.now.0 <ℚ q.now.0 }
    requires up { p.now.1 <ℚ q.now.1 }
    ensures { Gives (λ _. composed.new.items) (λ q. q) result
        (at_part part (behind composed.old.items
        (each (corner_by passes_Q p.now q.now) (filter (λ c. lt_ℚ c.0 q.now.1) between.now)))) }
{
    for corner in between {
        add_corner_below(composed, corner, q.1, p, q, part)?;
    }
    Ok(())
}

// Appends the points where a decreasing piece reaches the outer points `between`, in reverse order. Skips an outer point at the piece's
// first value.
fn add_corners_down(
    composed: &mut Vec<Point>,
    between: &[Point],
    p: &Point,
    q: &Point,
    part: Part,
) -> Result<(), Halt<Q>>
    requires later { p.now.0 <ℚ q.now.0 }
    requires down { q.now.1 <ℚ p.now.1 }
    ensures { Gives (λ _. composed.new.items) (λ q. q) result
        (at_part part
        (behind composed.old.items (each (corner_by passes_Q p.now q.now)
        (filter (λ c. lt_ℚ c.0 p.now.1) (reverse between.now))))) }
{
    let mut left = between.len();
    while left > 0 {
        left -= 1;
        add_corner_below(composed, &between[left], p.1, p, q, part)?;
    }
    Ok(())
}

// Appends the points where a piece reaches outer points. `places` holds the outer point counts up to the piece's first and last value.
fn add_corners(
    composed: &mut Vec<Point>,
    outer: &[Point],
    places: (usize, usize),
    p: &Point,
    q: &Point,
    part: Part,
) -> Result<(), Halt<Q>>
    requires outer { IsCurve outer.now }
    requires later { p.now.0 <ℚ q.now.0 }
    requires first { places.0 ≡ count_until p.now.1 outer.now }
    requires last { places.1 ≡ count_until q.now.1 outer.now }
    ensures { Gives (λ _. composed.new.items) (λ q. q) result
        (at_part part (behind composed.old.items
        (each (corner_by passes_Q p.now q.now)
        (points_along (lt_ℚ p.now.1 q.now.1) p.now.1 q.now.1 outer.now)))) }
{
    let (first, last) = places;
    if p.1.is_below(q.1) {
        add_corners_up(composed, &outer[first..last], p, q, part)
    } else if q.1.is_below(p.1) {
        add_corners_down(composed, &outer[last..first], p, q, part)
    } else {
        Ok(())
    }
}

// Where the outer curve is read: the number of its points up to an inner value, and the slope kept of it.
#[derive(Clone, Copy)]
struct OuterPlace {
    count: usize,
    kept: Option<PieceSlope>,
}

// Appends the points of a piece: its beginning, and where it reaches outer points. Moves `place` from the piece's first to its last value.
fn add_piece(
    composed: &mut Vec<Point>,
    outer: &[Point],
    place: &mut OuterPlace,
    p: &Point,
    q: &Point,
    part: Part,
) -> Result<(), Halt<Q>>
    requires outer { IsCurve outer.now }
    requires later { p.now.0 <ℚ q.now.0 }
    requires value { 0ℚ ≤ℚ p.now.1 }
    requires place { place.old.count ≡ count_until p.now.1 outer.now }
    requires kept { KeepsSlope outer.now place.old.kept }
    ensures points { Gives (λ _. composed.new.items) (λ q. q) result
        (at_part part (behind composed.old.items (composed_piece passes_Q outer.now p.now q.now))) }
    ensures place { IfOk result (λ _. place.new.count ≡ count_until q.now.1 outer.now) }
    ensures kept { KeepsSlope outer.now place.new.kept }
{
    let value = value_with(outer, place.count, p.1, &mut place.kept, part)?;
    composed.push((p.0, value))?;
    let next = place_near(outer, place.count, q.1);
    add_corners(composed, outer, (place.count, next), p, q, part)?;
    place.count = next;
    Ok(())
}

// Returns the points of the composition, from the first inner point to the last.
fn composed_points(
    alloc: Global,
    outer: &[Point],
    inner: &[Point],
    part: Part,
) -> Result<Vec<Point>, Halt<Q>>
    requires outer { IsCurve outer.now }
    requires inner { IsCurve inner.now }
    requires values { (i : ℕ) (p : ℚ × ℚ) → slice_get inner.now i ≡ Some p → 0ℚ ≤ℚ p.1 }
    ensures { Gives (λ points. points.items) (λ q. q) result
        (at_part part (composed_all passes_Q outer.now inner.now)) }
{
    let mut composed = Vec::with_capacity(alloc, inner.len() + 1)?;
    let mut place = OuterPlace {
        count: place_up(outer, 0, inner[0].1),
        kept: None,
    };
    for i in 1..inner.len() {
        add_piece(
            &mut composed,
            outer,
            &mut place,
            &inner[i - 1],
            &inner[i],
            part,
        )?;
    }
    let end = &inner[inner.len() - 1];
    let value = value_with(outer, place.count, end.1, &mut place.kept, part)?;
    composed.push((end.0, value))?;
    Ok(composed)
}

/// Returns the points of the composition of `outer` and `inner`, for times from 0 to `last`. Does not cut `inner` if `inner` ends at `last`.
#[tactic(auto, unfolding(nf_curve_def::specs::Composed::checked_composed))]
pub(crate) fn composed_until(
    alloc: Global,
    outer: &[Point],
    inner: &[Point],
    last: Q,
    part: Part,
) -> Result<Vec<Point>, Halt<Q>>
    requires outer { IsCurve outer.now }
    requires inner { IsCurve inner.now }
    requires last { 0ℚ ≤ℚ last }
    requires values { (time : ℚ) → Within 0ℚ last time → 0ℚ ≤ℚ value inner.now time }
    ensures { Gives (λ points. points.items) (λ q. q) result
        (at_part part (checked_composed passes_Q outer.now inner.now last)) }
{
    if ends_at(inner, last) {
        return composed_points(alloc, outer, inner, part);
    }
    let cut = cut_points(alloc, inner, last, part)?;
    composed_points(alloc, outer, &cut, part)
}
