// Copies of curves.
ghost use Rattle.std.specs.Prelude.{◌≡◌, ◌<◌, ◌≤◌, length, take, IfOk};
ghost use Rattle.nf_model.specs.Curve.{IsCurve};

use nf_curve::Curve;
use std::alloc::{AllocError, Global};

/// Returns a curve of the first `count` points. Fails if an allocation fails.
pub(crate) fn first_points(alloc: Global, curve: &Curve, count: usize) -> Result<Curve, AllocError>
    requires curve { IsCurve curve.now.points }
    requires some { 0 < count }
    requires within { count ≤ length curve.now.points }
    ensures { IfOk result (λ c. c.points ≡ take count curve.now.points) }
{
    let (_, first) = curve.point(0);
    let mut points = Curve::start(alloc, first)?;
    for i in 1..count {
        let (time, value) = curve.point(i);
        points.push(time, value)?;
    }
    Ok(points)
}

/// Returns an equal curve. Fails if an allocation fails.
pub(crate) fn copy_of(alloc: Global, curve: &Curve) -> Result<Curve, AllocError>
    ensures { IfOk result (λ c. c.points ≡ curve.now.points) }
{
    first_points(alloc, curve, curve.len())
}
