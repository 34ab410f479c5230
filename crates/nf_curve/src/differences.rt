// The first corner at which two curves differ.
ghost use Rattle.std.specs.Prelude.{◌≡◌, [], ◌∷◌, ◌≤◌, ◌-◌, length, slice_get, option_map};
ghost use Rattle.nf_rational.specs.Operations.{0ℚ};
ghost use Rattle.nf_rational.specs.Order.{◌≤ℚ◌, ◌<ℚ◌};
ghost use Rattle.nf_frac_def.specs.Passing.{passes_Q};
ghost use Rattle.nf_frac_def.specs.Checked.{at_part, seen_at};
ghost use Rattle.nf_model.specs.Curve.{IsCurve, TimesRise};
ghost use Rattle.nf_rational.specs.Signs.{is_same as is_same_by};
ghost use Rattle.nf_curve_def.specs.Differences.{do_differ as do_differ_by, turn_at, checked_turn, turns_at, checked_difference};
ghost use Rattle.nf_curve.specs.Sides.{sides_of};
ghost use Rattle.nf_curve.specs.Places.{count_until};
ghost use Rattle.nf_curve.specs.Moments.{IsMoment, only_before as only_before_by};
ghost use Rattle.nf_curve.specs.Steps.{turn_between, difference_step};
ghost use Rattle.nf_curve.specs.Slopes.{KeepBoth};

use crate::lines::{Point, Sides, slope};
use crate::places::place_up;
use crate::walk::{KeptSlopes, Moment, first_moment, next_moment, sides_with};
use nf_frac::{Part, PassedAt, Q};

// Returns whether the two values differ.
fn do_differ(sides: &Sides) -> bool
    ensures { result ≡ do_differ_by (sides_of sides.now) }
{
    !sides.left.is_same(sides.right)
}

// Returns whether the curve has a corner at its last point `q`: whether the slope from `p` to `q` is nonzero.
fn turns_at_end(p: &Point, q: &Point, part: Part) -> Result<bool, PassedAt<Q>>
    requires { p.now.0 <ℚ q.now.0 }
    ensures { result ≡ at_part part (turn_at passes_Q p.now q.now []) }
{
    let before = slope(p, q, part)?;
    Ok(!before.is_same(Q::zero()))
}

// Returns whether the slopes before and after the middle one of three points differ.
fn turns_inside(p: &Point, q: &Point, r: &Point, part: Part) -> Result<bool, PassedAt<Q>>
    requires before { p.now.0 <ℚ q.now.0 }
    requires after { q.now.0 <ℚ r.now.0 }
    ensures { result ≡ at_part part (turn_at passes_Q p.now q.now (r.now ∷ [])) }
{
    let before = slope(p, q, part)?;
    let after = slope(q, r, part)?;
    Ok(!before.is_same(after))
}

// Returns whether the slopes before and after the point `place - 1` differ.
fn turns_before(points: &[Point], place: usize, part: Part) -> Result<bool, PassedAt<Q>>
    requires rise { TimesRise points.now }
    requires some { 2 ≤ place }
    requires within { place ≤ length points.now }
    ensures { result ≡ at_part part
        (turn_between passes_Q (slice_get points.now (place - 2)) (slice_get points.now (place - 1))
        (slice_get points.now place)) }
{
    let (p, q) = (&points[place - 2], &points[place - 1]);
    if place == points.len() {
        turns_at_end(p, q, part)
    } else {
        turns_inside(p, q, &points[place], part)
    }
}

// Returns whether the curve has a point at `time`, after its first one, at which the slope changes.
fn does_turn(points: &[Point], place: usize, time: Q, part: Part) -> Result<bool, PassedAt<Q>>
    requires curve { IsCurve points.now }
    requires time { 0ℚ ≤ℚ time }
    requires place { place ≡ count_until time points.now }
    requires within { place ≤ length points.now }
    ensures { result ≡ at_part part (checked_turn passes_Q time points.now) }
{
    if place < 2 || !time.is_same(points[place - 1].0) {
        return Ok(false);
    }
    turns_before(points, place, part)
}

// Returns whether a time is a corner: time 0, or a time at which the slope of either curve changes. Examines the left curve first.
fn is_corner(left: &[Point], right: &[Point], now: &Moment, part: Part) -> Result<bool, PassedAt<Q>>
    requires left { IsCurve left.now }
    requires right { IsCurve right.now }
    requires there { IsMoment left.now right.now now.now }
    ensures { result ≡ at_part part
        (turns_at passes_Q (is_same_by now.now.time 0ℚ) now.now.time left.now right.now) }
{
    if now.time.is_same(Q::zero()) || does_turn(left, now.left, now.time, part)? {
        return Ok(true);
    }
    does_turn(right, now.right, now.time, part)
}

// Returns both values at a time if it is a corner and they differ.
fn difference_at(
    left: &[Point],
    right: &[Point],
    now: &Moment,
    kept: &mut KeptSlopes,
    part: Part,
) -> Result<Option<Sides>, PassedAt<Q>>
    requires left { IsCurve left.now }
    requires right { IsCurve right.now }
    requires there { IsMoment left.now right.now now.now }
    requires kept { KeepBoth left.now right.now kept.old }
    ensures found { seen_at (option_map sides_of) (λ q. q) result
        ≡ at_part part (difference_step passes_Q left.now right.now now.now.time) }
    ensures kept { KeepBoth left.now right.now kept.new }
{
    let sides = sides_with(left, right, now, kept, part)?;
    if do_differ(&sides) && is_corner(left, right, now, part)? {
        Ok(Some(sides))
    } else {
        Ok(None)
    }
}

// Returns the current time of the merge, if it is before `last`.
fn only_before(last: Q, now: Option<Moment>) -> Option<Moment>
    ensures { result ≡ only_before_by last now }
{
    match now {
        Some(moment) if moment.time.is_below(last) => Some(moment),
        _ => None,
    }
}

/// Returns the first corner in [0, `last`] at which two curves differ, with both values.
pub(crate) fn difference_until(
    left: &[Point],
    right: &[Point],
    last: Q,
    part: Part,
) -> Result<Option<Sides>, PassedAt<Q>>
    requires left { IsCurve left.now }
    requires right { IsCurve right.now }
    requires last { 0ℚ ≤ℚ last }
    ensures { seen_at (option_map sides_of) (λ q. q) result
        ≡ at_part part (checked_difference passes_Q left.now right.now last) }
{
    let mut kept = KeptSlopes::none();
    let mut places = (0, 0);
    let mut now = only_before(last, Some(first_moment(left, right)));
    while let Some(moment) = now {
        if let Some(sides) = difference_at(left, right, &moment, &mut kept, part)? {
            return Ok(Some(sides));
        }
        now = only_before(last, next_moment(left, right, &moment));
        places = (moment.left, moment.right);
    }
    let end = Moment {
        time: last,
        left: place_up(left, places.0, last),
        right: place_up(right, places.1, last),
    };
    let sides = sides_with(left, right, &end, &mut kept, part)?;
    Ok(if do_differ(&sides) { Some(sides) } else { None })
}
