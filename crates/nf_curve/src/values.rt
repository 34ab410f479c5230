// Values of a curve at times, with the slope of a piece kept from time to time.
ghost use Rattle.std.specs.Prelude.{◌≡◌, ◌-◌, ◌<◌, length, slice_get, Some};
ghost use Rattle.nf_rational.specs.Operations.{0ℚ};
ghost use Rattle.nf_rational.specs.Order.{◌≤ℚ◌};
ghost use Rattle.nf_frac_def.specs.Passing.{passes_Q};
ghost use Rattle.nf_frac_def.specs.Checked.{at_part};
ghost use Rattle.nf_model.specs.Curve.{Point as SeenPoint, IsCurve, TimesRise};
ghost use Rattle.nf_curve_def.specs.Lines.{checked_slope};
ghost use Rattle.nf_curve_def.specs.Values.{checked_value};
ghost use Rattle.nf_curve.specs.Places.{count_until};
ghost use Rattle.nf_curve.specs.Slopes.{KeepsSlope};

use crate::lines::{Point, along, slope};
use nf_frac::{Part, PassedAt, Q};

/// The slope of a curve's piece that ends at the point of index `place`.
#[derive(Clone, Copy)]
pub struct PieceSlope {
    pub place: usize,
    pub slope: Q,
}

// Returns the slope of the piece that ends at the point of index `place`. Computes it unless it is kept, and keeps it.
fn slope_at(
    points: &[Point],
    place: usize,
    kept: &mut Option<PieceSlope>,
    part: Part,
) -> Result<Q, PassedAt<Q>>
    requires rise { TimesRise points.now }
    requires some { 0 < place }
    requires within { place < length points.now }
    requires kept { KeepsSlope points.now kept.old }
    ensures slope { (p q : SeenPoint) → slice_get points.now (place - 1) ≡ Some p
        → slice_get points.now place ≡ Some q
        → result ≡ at_part part (checked_slope passes_Q p q) }
    ensures kept { KeepsSlope points.now kept.new }
{
    if let Some(known) = *kept {
        if known.place == place {
            return Ok(known.slope);
        }
    }
    let slope = slope(&points[place - 1], &points[place], part)?;
    *kept = Some(PieceSlope { place, slope });
    Ok(slope)
}

/// Returns the value at `time`, as `value_at` does. `kept` may hold the slope of one piece of this curve, which is then not computed again.
/// Afterwards `kept` holds the slope that was used.
pub fn value_with(
    points: &[Point],
    place: usize,
    time: Q,
    kept: &mut Option<PieceSlope>,
    part: Part,
) -> Result<Q, PassedAt<Q>>
    requires curve { IsCurve points.now }
    requires time { 0ℚ ≤ℚ time }
    requires place { place ≡ count_until time points.now }
    requires kept { KeepsSlope points.now kept.old }
    ensures value { result ≡ at_part part (checked_value passes_Q points.now time) }
    ensures kept { KeepsSlope points.now kept.new }
{
    let last = points[place - 1];
    if place == points.len() || time == last.0 {
        return Ok(last.1);
    }
    let slope = slope_at(points, place, kept, part)?;
    along(&last, slope, time, part)
}

/// Returns the value at `time`, which must be at least 0. `place` must be the number of points at or before `time`. Returns `PassedAt`
/// exactly if an operation of `checked_value` passes: the first one, with `part`. Does not allocate.
pub fn value_at(points: &[Point], place: usize, time: Q, part: Part) -> Result<Q, PassedAt<Q>>
    requires curve { IsCurve points.now }
    requires time { 0ℚ ≤ℚ time }
    requires place { place ≡ count_until time points.now }
    ensures { result ≡ at_part part (checked_value passes_Q points.now time) }
{
    let mut none = None;
    value_with(points, place, time, &mut none, part)
}
