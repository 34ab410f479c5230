// A single curve: its cut at a last time, in short form, with its rates; and its last value.
ghost use Rattle.std.specs.Prelude.{◌≡◌, ◌<◌, length};
ghost use Rattle.nf_rational.specs.Operations.{0ℚ};
ghost use Rattle.nf_rational.specs.Order.{◌≤ℚ◌};
ghost use Rattle.nf_frac_def.specs.declared.Part.TheVariants.{Curve as OfCurve};
ghost use Rattle.nf_frac_def.specs.Passing.{passes_Q};
ghost use Rattle.nf_frac_def.specs.Checked.{at_part, Gives};
ghost use Rattle.nf_model.specs.Equilibrium.{points_at};
ghost use Rattle.nf_curve_def.specs.Short.{checked_slopes};
ghost use Rattle.nf_curve.specs.Flows.{seen_trace};
ghost use Rattle.nf_phase_def.specs.Restoring.{value_at_end};
ghost use Rattle.nf_resume_def.specs.Resuming.{cut_short as cut_short_by, cut_trace as cut_trace_by};
ghost use Rattle.nf_resume.specs.Cuts.{points_of_each};

use nf_curve::{Curve, Trace, slope};
use nf_frac::{Halt, Part, Q};
use nf_graph::NodeId;
use std::alloc::Global;

// Returns the rates of a curve: for each point but the last, the slope to the next. Refuses at the first operation that exceeds its bound.
fn rates(alloc: Global, curve: &Curve) -> Result<Vec<Q>, Halt<Q>>
    ensures { Gives (λ rates. rates.items) (λ q. q) result
        (at_part OfCurve (checked_slopes passes_Q curve.now.points)) }
{
    let count = curve.len() - 1;
    let mut rates = Vec::with_capacity(alloc, count)?;
    for i in 0..count {
        let point = curve.point(i);
        let next = curve.point(i + 1);
        let rate = slope(&point, &next, Part::Curve)?;
        rates.push(rate)?;
    }
    Ok(rates)
}

/// Returns the curve up to a last time, in short form. Refuses at the first operation that exceeds its bound.
#[tactic(auto, using(nf_curve::proofs::Exits::after_ok, nf_curve::proofs::Exits::after_err))]
pub(crate) fn cut_short(alloc: Global, curve: &Curve, last: Q) -> Result<Curve, Halt<Q>>
    requires { 0ℚ ≤ℚ last }
    ensures { Gives (λ c. c.points) (λ q. q) result
        (at_part OfCurve (cut_short_by passes_Q last curve.now.points)) }
{
    let cut = curve.cut(alloc, last, Part::Curve)?;
    Curve::short(alloc, &cut, Part::Curve)
}

/// Returns the trace up to a last time, in short form, with its rates. Refuses at the first operation that exceeds its bound.
#[tactic(auto, using(nf_curve::proofs::Exits::after_ok, nf_curve::proofs::Exits::after_err))]
pub(crate) fn cut_trace(alloc: Global, trace: &Trace, last: Q) -> Result<Trace, Halt<Q>>
    requires { 0ℚ ≤ℚ last }
    ensures { Gives seen_trace (λ q. q) result
        (at_part OfCurve (cut_trace_by passes_Q last trace.now.curve.points)) }
{
    let curve = cut_short(alloc, &trace.curve, last)?;
    let rates = rates(alloc, &curve)?;
    Ok(Trace { curve, rates })
}

/// Returns the value of a node's label at the last point of its curve, a time.
pub(crate) fn last_label(labels: &[Curve], node: NodeId) -> Q
    requires { node < length labels.now }
    ensures { result ≡ value_at_end (points_at (points_of_each labels.now) node) }
{
    let label = &labels[node.index()];
    let (_, value) = label.point(label.len() - 1);
    value
}
