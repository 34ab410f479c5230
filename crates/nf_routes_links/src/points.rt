// Points of curves: which is at a time, and copies.
ghost use Rattle.std.specs.Prelude.{◌≡◌, ◌≤◌, length, IfOk, IfSome};
ghost use Rattle.nf_routes_links.specs.Points.{IsPoint};

use nf_curve::Point;
use nf_frac::Q;
use std::alloc::{AllocError, Global};

/// Returns the number of the first point from `from` on that is not before `time`, or else the number of points.
pub(crate) fn first_from(points: &[Point], from: usize, time: Q) -> usize
    ensures { result ≤ length points.now }
{
    for place in from..points.len() {
        if !points[place].0.is_below(time) {
            return place;
        }
    }
    points.len()
}

/// Returns the value of the point of this number, if it is at the time.
pub(crate) fn value_there(points: &[Point], place: usize, time: Q) -> Option<Q>
    ensures { IfSome result (λ value. IsPoint points.now time value) }
{
    if place >= points.len() {
        return None;
    }
    let point = points[place];
    if !point.0.is_same(time) {
        return None;
    }
    Some(point.1)
}

/// Returns the same points.
pub(crate) fn copied_points(alloc: Global, points: &[Point]) -> Result<Vec<Point>, AllocError>
    ensures { IfOk result (λ copy. copy.items ≡ points.now) }
{
    let mut copy = Vec::with_capacity(alloc, points.len())?;
    for point in points {
        copy.push(*point)?;
    }
    Ok(copy)
}
