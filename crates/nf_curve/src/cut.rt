// A curve up to a last time.
ghost use Rattle.std.specs.Prelude.{◌≡◌, ◌++◌, Ok, OnOk, IsTrue};
ghost use Rattle.nf_rational.specs.Operations.{0ℚ};
ghost use Rattle.nf_rational.specs.Order.{◌≤ℚ◌};
ghost use Rattle.nf_rational.specs.Signs.{is_same as is_same_by};
ghost use Rattle.nf_frac_def.specs.Passing.{passes_Q};
ghost use Rattle.nf_frac_def.specs.Checked.{at_part, Gives};
ghost use Rattle.nf_model.specs.Curve.{IsCurve};
ghost use Rattle.nf_curve_def.specs.Values.{points_before, checked_cut};
ghost use Rattle.nf_curve.specs.Points.{last_time};

use crate::lines::Point;
use crate::places::place_up;
use crate::values::value_at;
use nf_frac::{Halt, Part, Q};
use std::alloc::{AllocError, Global};

// Appends the points before a time.
fn add_before(cut: &mut Vec<Point>, points: &[Point], last: Q) -> Result<(), AllocError>
    ensures { OnOk result (cut.new.items ≡ cut.old.items ++ points_before last points.now) }
{
    for point in points {
        if !point.0.is_below(last) {
            return Ok(());
        }
        cut.push(*point)?;
    }
    Ok(())
}

/// Returns the points of a curve before `last`, followed by a point at `last`.
#[tactic(auto, unfolding(nf_curve_def::specs::Values::checked_cut))]
pub(crate) fn cut_points(
    alloc: Global,
    points: &[Point],
    last: Q,
    part: Part,
) -> Result<Vec<Point>, Halt<Q>>
    requires curve { IsCurve points.now }
    requires last { 0ℚ ≤ℚ last }
    ensures { Gives (λ cut. cut.items) (λ q. q) result
        (at_part part (checked_cut passes_Q points.now last)) }
{
    let value = value_at(points, place_up(points, 0, last), last, part)?;
    let mut cut = Vec::with_capacity(alloc, points.len() + 1)?;
    add_before(&mut cut, points, last)?;
    cut.push((last, value))?;
    Ok(cut)
}

/// Returns whether the last point of a curve is at the time `last`, which must be at least 0. Then the curve is its own cut there. Never
/// fails, and does not allocate.
pub fn ends_at(points: &[Point], last: Q) -> bool
    requires curve { IsCurve points.now }
    requires last { 0ℚ ≤ℚ last }
    ensures end { result ≡ is_same_by (last_time points.now) last }
    ensures whole { IsTrue result → checked_cut passes_Q points.now last ≡ Ok points.now }
{
    points[points.len() - 1].0.is_same(last)
}
