// The merge of two curves' times lists the times of the points of either, in increasing order.
ghost use Rattle.std.specs.Prelude.{◌≡◌, List, ◌∷◌, slice_get, option_map, IfSome, IfOk};
ghost use Rattle.nf_rational.specs.Operations.{0ℚ};
ghost use Rattle.nf_rational.specs.Order.{◌<ℚ◌};
ghost use Rattle.nf_frac_def.specs.Passing.{passes_Q};
ghost use Rattle.nf_frac_def.specs.Checked.{at_part, seen_at};
ghost use Rattle.nf_model.specs.Curve.{Point as SeenPoint, IsCurve};
ghost use Rattle.nf_curve_def.specs.Times.{both_times};
ghost use Rattle.nf_curve_def.specs.Sums.{sides_at as sides_by};
ghost use Rattle.nf_curve.specs.Sides.{sides_of};
ghost use Rattle.nf_curve.specs.Places.{earlier_of, times_after};
ghost use Rattle.nf_curve.specs.Moments.{IsMoment, IsThere, times_left};
ghost use Rattle.nf_curve.specs.Slopes.{KeepBoth};

use crate::lines::{Point, Sides};
use crate::places::{place_next, place_up};
use crate::values::{PieceSlope, value_with};
use nf_frac::{Part, PassedAt, Q};

/// A time in the merge of two curves' times. The fields `left` and `right` hold the number of points of each curve at or before it.
#[derive(Clone, Copy)]
pub struct Moment {
    pub time: Q,
    pub left: usize,
    pub right: usize,
}

/// Returns the time of the point at this index, if there is one.
pub fn time_at(points: &[Point], place: usize) -> Option<Q>
    ensures { result ≡ option_map (λ p. p.0) (slice_get points.now place) }
{
    if place < points.len() {
        Some(points[place].0)
    } else {
        None
    }
}

/// Returns the earlier of two times, or the only one.
pub fn earlier(left: Option<Q>, right: Option<Q>) -> Option<Q>
    ensures { result ≡ earlier_of left right }
{
    match (left, right) {
        (Some(left), Some(right)) => Some(left.lesser(right)),
        (Some(time), None) | (None, Some(time)) => Some(time),
        (None, None) => None,
    }
}

/// Returns the first time of the merge of two curves' times: time 0. The merge contains each time of a point of either curve once, in
/// increasing order. Never fails, and does not allocate.
pub fn first_moment(left: &[Point], right: &[Point]) -> Moment
    requires left { IsCurve left.now }
    requires right { IsCurve right.now }
    ensures there { IsMoment left.now right.now result }
    ensures times { both_times left.now right.now
        ≡ result.time ∷ times_after result.time left.now right.now }
    ensures time { result.time ≡ 0ℚ }
{
    let time = Q::zero();
    Moment {
        time,
        left: place_up(left, 0, time),
        right: place_up(right, 0, time),
    }
}

/// Returns the next time of the merge of two curves' times. Returns None exactly if neither curve has a point after `now`. `now` must be
/// a time of the merge of these two curves. Never fails, and does not allocate.
pub fn next_moment(left: &[Point], right: &[Point], now: &Moment) -> Option<Moment>
    requires left { IsCurve left.now }
    requires right { IsCurve right.now }
    requires there { IsMoment left.now right.now now.now }
    ensures there { IsThere left.now right.now result }
    ensures times { times_after now.now.time left.now right.now
        ≡ times_left left.now right.now result }
    ensures later { IfSome result (λ next. now.now.time <ℚ next.time) }
{
    let Some(time) = earlier(time_at(left, now.left), time_at(right, now.right)) else {
        return None;
    };
    Some(Moment {
        time,
        left: place_next(left, now.left, time),
        right: place_next(right, now.right, time),
    })
}

/// The slopes kept of two curves.
#[derive(Clone, Copy)]
pub(crate) struct KeptSlopes {
    pub left: Option<PieceSlope>,
    pub right: Option<PieceSlope>,
}

impl KeptSlopes {
    /// Returns no kept slopes.
    pub(crate) fn none() -> KeptSlopes
        ensures { (left right : List SeenPoint) → KeepBoth left right result }
    {
        KeptSlopes {
            left: None,
            right: None,
        }
    }
}

/// Returns both values at the time `now` of the merge, as `sides_at` does, with the slopes kept from time to time.
pub(crate) fn sides_with(
    left: &[Point],
    right: &[Point],
    now: &Moment,
    kept: &mut KeptSlopes,
    part: Part,
) -> Result<Sides, PassedAt<Q>>
    requires left { IsCurve left.now }
    requires right { IsCurve right.now }
    requires there { IsMoment left.now right.now now.now }
    requires kept { KeepBoth left.now right.now kept.old }
    ensures list { seen_at sides_of (λ q. q) result
        ≡ at_part part (sides_by passes_Q left.now right.now now.now.time) }
    ensures time { IfOk result (λ sides. sides.time ≡ now.now.time) }
    ensures kept { KeepBoth left.now right.now kept.new }
{
    let left_value = value_with(left, now.left, now.time, &mut kept.left, part)?;
    let right_value = value_with(right, now.right, now.time, &mut kept.right, part)?;
    Ok(Sides {
        time: now.time,
        left: left_value,
        right: right_value,
    })
}

/// Returns both values at the time `now` of the merge, each in the unit of its curve. Returns `PassedAt` exactly if an operation of
/// `sides_at` (nf_curve_def/specs/Sums.antt) passes: the first one, with `part`. Does not allocate.
pub fn sides_at(
    left: &[Point],
    right: &[Point],
    now: &Moment,
    part: Part,
) -> Result<Sides, PassedAt<Q>>
    requires left { IsCurve left.now }
    requires right { IsCurve right.now }
    requires there { IsMoment left.now right.now now.now }
    ensures list { seen_at sides_of (λ q. q) result
        ≡ at_part part (sides_by passes_Q left.now right.now now.now.time) }
    ensures time { IfOk result (λ sides. sides.time ≡ now.now.time) }
{
    sides_with(left, right, now, &mut KeptSlopes::none(), part)
}
