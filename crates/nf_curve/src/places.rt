// Point counts: the number of points of a curve at or before a time.
ghost use Rattle.std.specs.Prelude.{◌≡◌, ◌≤◌, length, slice_get, IfSome};
ghost use Rattle.nf_rational.specs.Order.{◌≤ℚ◌};
ghost use Rattle.nf_model.specs.Curve.{IsCurve, TimesRise};
ghost use Rattle.nf_curve.specs.Places.{count_until};

use crate::lines::Point;
use nf_frac::Q;

/// Returns the number of points at or before `time`. Counts up from `from`, which must be at most this number.
pub(crate) fn place_up(points: &[Point], from: usize, time: Q) -> usize
    requires rise { TimesRise points.now }
    requires from { from ≤ count_until time points.now }
    ensures { result ≡ count_until time points.now }
{
    let mut place = from;
    while place < points.len() && !time.is_below(points[place].0) {
        place += 1;
    }
    place
}

// Counts down from `from` until the count is at most the number of points at or before `time`.
fn place_down(points: &[Point], from: usize, time: Q) -> usize
    requires rise { TimesRise points.now }
    requires from { from ≤ length points.now }
    ensures { result ≤ count_until time points.now }
{
    let mut place = from;
    while place > 0 && time.is_below(points[place - 1].0) {
        place -= 1;
    }
    place
}

/// Returns the number of points at or before `time`. Counts up or down from `from`, so the call reads few points if `from` is near. Never
/// fails, and does not allocate.
pub fn place_near(points: &[Point], from: usize, time: Q) -> usize
    requires curve { IsCurve points.now }
    requires from { from ≤ length points.now }
    ensures { result ≡ count_until time points.now }
{
    let down = place_down(points, from, time);
    place_up(points, down, time)
}

/// Returns the number of points at or before `time`, in one comparison. Of the points, `place` must be at or before `time`, and the next one
/// must be at or after it. Never fails, and does not allocate.
pub fn place_next(points: &[Point], place: usize, time: Q) -> usize
    requires curve { IsCurve points.now }
    requires from { place ≤ count_until time points.now }
    requires next { IfSome (slice_get points.now place) (λ p. time ≤ℚ p.0) }
    ensures { result ≡ count_until time points.now }
{
    if place >= points.len() {
        return place;
    }
    if points[place].0.is_same(time) {
        place + 1
    } else {
        place
    }
}
