// A curve in short form.
ghost use Rattle.std.specs.Prelude.{◌≡◌, [], ◌∷◌, ◌++◌, if◌then◌else◌, OnOk};
ghost use Rattle.nf_frac_def.specs.Passing.{passes_Q};
ghost use Rattle.nf_frac_def.specs.Checked.{at_part, Gives};
ghost use Rattle.nf_model.specs.Curve.{IsCurve};
ghost use Rattle.nf_rational.specs.Signs.{is_same as is_same_by};
ghost use Rattle.nf_curve_def.specs.Short.{checked_short};

use crate::lines::{Point, slope};
use nf_frac::{Halt, Part, Q};
use std::alloc::{AllocError, Global};

// Appends a point, unless the slopes before and after it are equal.
fn keep_if_turning(
    short: &mut Vec<Point>,
    point: &Point,
    before: Q,
    after: Q,
) -> Result<(), AllocError>
    ensures { OnOk result (short.new.items ≡ (if is_same_by before after then short.old.items
        else short.old.items ++ point.now ∷ [])) }
{
    if !before.is_same(after) {
        short.push(*point)?;
    }
    Ok(())
}

/// Returns the points of a curve without the inner ones that have equal slopes on both sides. Gives back the room that is left.
pub(crate) fn short_points(
    alloc: Global,
    points: &[Point],
    part: Part,
) -> Result<Vec<Point>, Halt<Q>>
    requires { IsCurve points.now }
    ensures { Gives (λ points. points.items) (λ q. q) result
        (at_part part (checked_short passes_Q points.now)) }
{
    let mut short = Vec::with_capacity(alloc, points.len())?;
    short.push(points[0])?;
    if points.len() == 1 {
        return Ok(short);
    }
    let mut before = slope(&points[0], &points[1], part)?;
    for i in 1..points.len() - 1 {
        let after = slope(&points[i], &points[i + 1], part)?;
        keep_if_turning(&mut short, &points[i], before, after)?;
        before = after;
    }
    short.push(points[points.len() - 1])?;
    short.shrink_to_fit();
    Ok(short)
}
