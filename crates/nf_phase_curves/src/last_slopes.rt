// The slope of the last piece of a curve.
ghost use Rattle.std.specs.Prelude.{◌≡◌, ◌≤◌, length, IfOk, IsSome};
ghost use Rattle.nf_frac_def.specs.declared.Part.TheVariants.{Curve as CurvePart};
ghost use Rattle.nf_frac_def.specs.Passing.{passes_Q};
ghost use Rattle.nf_frac_def.specs.Checked.{at_part};
ghost use Rattle.nf_phase_def.specs.Restoring.{last_slope as last_slope_by};

use nf_curve::{Curve, slope};
use nf_frac::{Part, PassedAt, Q};

/// Returns the slope of the last piece of a curve, or None if the curve has one point only. Refuses with Passed, of the part Curve, exactly
/// at the first operation of its list that exceeds its bound. Allocates nothing.
pub(crate) fn last_slope(curve: &Curve) -> Result<Option<Q>, PassedAt<Q>>
    ensures list { result ≡ at_part CurvePart (last_slope_by passes_Q curve.now.points) }
    ensures some { IfOk result (λ slope. IsSome slope → 2 ≤ length curve.now.points) }
{
    let count = curve.len();
    if count < 2 {
        return Ok(None);
    }
    let slope = slope(&curve.point(count - 2), &curve.last(), Part::Curve)?;
    Ok(Some(slope))
}
