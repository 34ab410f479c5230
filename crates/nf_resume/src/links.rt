// The curves of links, cut at the labels of their ends.
ghost use Rattle.std.specs.Prelude.{◌≡◌, ◌<◌, ℕ, length, map};
ghost use Rattle.nf_rational.specs.Operations.{0ℚ};
ghost use Rattle.nf_rational.specs.Order.{◌≤ℚ◌};
ghost use Rattle.nf_frac_def.specs.declared.Part.TheVariants.{Curve as OfCurve};
ghost use Rattle.nf_frac_def.specs.Passing.{passes_Q};
ghost use Rattle.nf_frac_def.specs.Checked.{at_part, each, Gives};
ghost use Rattle.nf_model.specs.Equilibrium.{points_at};
ghost use Rattle.nf_phase_def.specs.Restoring.{value_at_end};
ghost use Rattle.nf_resume_def.specs.Resuming.{links_with, cut_link as cut_link_by};
ghost use Rattle.nf_curve.specs.Flows.{seen_flow};
ghost use Rattle.nf_resume.specs.Cuts.{points_of_each, cut_in, cut_ends};

use crate::curves::{cut_short, cut_trace, last_label};
use nf_curve::{Curve, Flow, Trace};
use nf_frac::{Halt, Q};
use nf_graph::LinkId;
use nf_net::Network;
use std::alloc::Global;

/// The cut curves of a link.
#[derive(Drop)]
pub(crate) struct CutLink {
    pub inflow: Trace,
    pub outflow: Trace,
    pub queue: Curve,
}

// Returns the curves of a link up to the labels of its tail and head. Refuses at the first operation that exceeds its bound.
#[tactic(auto, using(nf_curve::proofs::Exits::after_ok, nf_curve::proofs::Exits::after_err))]
fn cut_link(
    alloc: Global,
    inflow: &Trace,
    outflow: &Trace,
    queue: &Curve,
    tail: Q,
    head: Q,
) -> Result<CutLink, Halt<Q>>
    requires tail { 0ℚ ≤ℚ tail }
    requires head { 0ℚ ≤ℚ head }
    ensures { Gives cut_in (λ q. q) result
        (at_part OfCurve (cut_ends passes_Q tail head inflow.now.curve.points
        outflow.now.curve.points queue.now.points)) }
{
    let inflow = cut_trace(alloc, inflow, tail)?;
    let outflow = cut_trace(alloc, outflow, head)?;
    let queue = cut_short(alloc, queue, tail)?;
    Ok(CutLink {
        inflow,
        outflow,
        queue,
    })
}

/// Returns the curves of all links up to the labels of their ends. Refuses at the first operation that exceeds its bound, or if an
/// allocation fails.
pub(crate) fn cut_links(
    alloc: Global,
    net: &Network,
    flow: &Flow,
    labels: &[Curve],
) -> Result<Vec<CutLink>, Halt<Q>>
    requires labels { length labels.now ≡ net.now.net.nodes }
    requires inflows { length flow.now.inflows.items ≡ length net.now.net.links }
    requires outflows { length flow.now.outflows.items ≡ length net.now.net.links }
    requires queues { length flow.now.queues.items ≡ length net.now.net.links }
    requires ends { (v : ℕ) → v < net.now.net.nodes
        → 0ℚ ≤ℚ value_at_end (points_at (points_of_each labels.now) v) }
    ensures { Gives (λ cuts. map cut_in cuts.items) (λ q. q) result (at_part OfCurve
        (each (cut_link_by passes_Q (points_of_each labels.now))
        (links_with net.now.net.links (seen_flow flow.now).inflows (seen_flow flow.now).outflows
        (seen_flow flow.now).queues))) }
{
    let mut cuts = Vec::with_capacity(alloc, net.link_count() as usize)?;
    for number in 0..net.link_count() {
        let link = net.link(LinkId(number));
        let tail = last_label(labels, link.tail);
        let head = last_label(labels, link.head);
        let inflow = &flow.inflows[number as usize];
        let outflow = &flow.outflows[number as usize];
        let queue = &flow.queues[number as usize];
        let cut = cut_link(alloc, inflow, outflow, queue, tail, head)?;
        cuts.push(cut)?;
    }
    Ok(cuts)
}
