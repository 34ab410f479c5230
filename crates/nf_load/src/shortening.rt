// Curves in short form, some of whose slopes are known.
ghost use Rattle.std.specs.Prelude.{◌≡◌, [], ◌∷◌, ◌++◌, if◌then◌else◌, OnOk, slice_get};
ghost use Rattle.nf_rational.specs.Order.{◌<ℚ◌};
ghost use Rattle.nf_frac_def.specs.Passing.{passes_Q};
ghost use Rattle.nf_frac_def.specs.Checked.{at_part, Gives};
ghost use Rattle.nf_model.specs.Curve.{IsCurve};
ghost use Rattle.nf_rational.specs.Signs.{is_same as is_same_by};
ghost use Rattle.nf_curve_def.specs.Lines.{checked_slope};
ghost use Rattle.nf_curve_def.specs.Short.{checked_short};
ghost use Rattle.nf_load.specs.Rates.{IsRate};
ghost use Rattle.nf_load.specs.Slopes.{AreKnownSlopes, flat};

use nf_curve::{Point, slope};
use nf_frac::{Halt, Part, PassedAt, Q};
use std::alloc::{AllocError, Global};

/// Returns the slope from one point to a later one. Computes it, unless it is known.
pub(crate) fn slope_or(p: &Point, q: &Point, known: Option<Q>, part: Part) -> Result<Q, PassedAt<Q>>
    requires later { p.now.0 <ℚ q.now.0 }
    requires known { IsRate known p.now q.now }
    ensures { result ≡ at_part part (checked_slope passes_Q p.now q.now) }
{
    match known {
        Some(slope) => Ok(slope),
        None => slope(p, q, part),
    }
}

/// Returns the entry of this number, if it is known.
pub(crate) fn known_at<T: Copy>(entries: &[Option<T>], index: usize) -> Option<T>
    ensures { result ≡ flat (slice_get entries.now index) }
{
    if index < entries.len() {
        entries[index]
    } else {
        None
    }
}

// Appends a point, unless the slopes before and after it are equal.
fn keep_if_turning(
    short: &mut Vec<Point>,
    point: &Point,
    before: Q,
    after: Q,
) -> Result<(), AllocError>
    ensures { OnOk result (short.new.items ≡ (if is_same_by before after then short.old.items
        else short.old.items ++ point.now ∷ [])) }
{
    if !before.is_same(after) {
        short.push(*point)?;
    }
    Ok(())
}

/// Returns the points of a curve without the inner ones that have equal slopes on both sides. `slopes` are those of the first pieces, where
/// they are known; they are not computed again. Gives back the room that is left.
pub(crate) fn short_points(
    alloc: Global,
    points: &[Point],
    slopes: &[Option<Q>],
    part: Part,
) -> Result<Vec<Point>, Halt<Q>>
    requires curve { IsCurve points.now }
    requires slopes { AreKnownSlopes points.now slopes.now }
    ensures { Gives (λ points. points.items) (λ q. q) result
        (at_part part (checked_short passes_Q points.now)) }
{
    let mut short = Vec::with_capacity(alloc, points.len())?;
    short.push(points[0])?;
    if points.len() == 1 {
        return Ok(short);
    }
    let mut before = slope_or(&points[0], &points[1], known_at(slopes, 0), part)?;
    for i in 1..points.len() - 1 {
        let after = slope_or(&points[i], &points[i + 1], known_at(slopes, i), part)?;
        keep_if_turning(&mut short, &points[i], before, after)?;
        before = after;
    }
    short.push(points[points.len() - 1])?;
    short.shrink_to_fit();
    Ok(short)
}
