// The growing curves of all links.
ghost use Rattle.std.specs.Prelude.{◌≡◌, ◌<◌, length, map, IfOk};
ghost use Rattle.nf_frac_def.specs.declared.Part.TheVariants.{Curve as CurvePart};
ghost use Rattle.nf_frac_def.specs.Passing.{passes_Q};
ghost use Rattle.nf_frac_def.specs.Checked.{at_part, Gives};
ghost use Rattle.nf_model.specs.Equilibrium.{HasSlopes};
ghost use Rattle.nf_curve.specs.Flows.{seen_trace};
ghost use Rattle.nf_thin_def.specs.ReportCurves.{amount_so_far, first_curves, curves_after, link_curves_after};
ghost use Rattle.nf_phase_curves.specs.Growing.{HasReserve, AllHaveRoom, all_grown};
ghost use Rattle.nf_phase_curves.specs.LinkGrowth.{LinkEndsBefore, AllLinksEndBefore};
ghost use Rattle.nf_phase_curves.specs.Restoring.{of_links};

use crate::link_curves::LinkCurves;
use crate::stepping::LinkStep;
use nf_curve::{Curve, Trace};
use nf_frac::{Halt, Q};
use nf_net::{Link, LinkId, Network};
use std::alloc::{AllocError, Global};

/// Returns the amount that has entered each link so far. Fails if an allocation fails.
pub fn amounts(alloc: Global, curves: &[LinkCurves]) -> Result<Vec<Q>, AllocError>
    ensures { IfOk result (λ amounts. amounts.items ≡ map amount_so_far (all_grown curves.now)) }
{
    let mut amounts = Vec::new(alloc);
    for of_link in curves {
        amounts.push(of_link.amount())?;
    }
    Ok(amounts)
}

// Returns the first curves of a link, where `labels` are the labels of departure 0.
fn first_of(alloc: Global, link: &Link, labels: &[Q]) -> Result<LinkCurves, AllocError>
    requires tail { link.now.tail < length labels.now }
    requires head { link.now.head < length labels.now }
    ensures { IfOk result (λ curves. curves.grown ≡ first_curves labels.now link.now) }
{
    let (tail, head) = (labels[link.tail.index()], labels[link.head.index()]);
    LinkCurves::first(alloc, tail, head)
}

/// Returns the curves of all links before the first phase, where `labels` are the labels of departure 0, times. Fails if an allocation
/// fails.
pub fn first_links(
    alloc: Global,
    net: &Network,
    labels: &[Q],
) -> Result<Vec<LinkCurves>, AllocError>
    requires { length labels.now ≡ net.now.net.nodes }
    ensures { IfOk result
        (λ curves. all_grown curves.items ≡ map (first_curves labels.now) net.now.net.links) }
{
    let mut curves = Vec::new(alloc);
    for e in 0..net.link_count() {
        let link = net.link(LinkId(e));
        let of_link = first_of(alloc, &link, labels)?;
        curves.push(of_link)?;
    }
    Ok(curves)
}

/// Returns growing curves of all links with the points of these curves. Refuses with Passed, of the part Curve, at the first operation of
/// the list of the queues that exceeds its bound. Fails with `Memory` if an allocation fails.
pub fn restore_links(
    alloc: Global,
    inflows: &[Trace],
    outflows: &[Trace],
    queues: &[Curve],
) -> Result<Vec<LinkCurves>, Halt<Q>>
    requires outflows { length outflows.now ≡ length inflows.now }
    requires queues { length queues.now ≡ length inflows.now }
    requires inflow_rates { HasSlopes (map seen_trace inflows.now) }
    requires outflow_rates { HasSlopes (map seen_trace outflows.now) }
    ensures { Gives (λ curves. all_grown curves.items) (λ q. q) result
        (at_part CurvePart (of_links passes_Q (map seen_trace inflows.now) (map seen_trace outflows.now)
        (map (λ c. c.points) queues.now))) }
{
    let mut curves = Vec::new(alloc);
    for e in 0..queues.len() {
        let next = LinkCurves::of(alloc, &inflows[e], &outflows[e], &queues[e])?;
        curves.push(next)?;
    }
    Ok(curves)
}

// Extends the curves of a link to these labels.
fn extend_link(curves: &mut LinkCurves, link: &Link, labels: &[Q], step: &LinkStep)
    requires tail { link.now.tail < length labels.now }
    requires head { link.now.head < length labels.now }
    requires room { HasReserve curves.old }
    requires later { LinkEndsBefore labels.now link.now curves.old.grown step.now }
    ensures { curves.new.grown ≡ curves_after labels.now link.now curves.old.grown step.now }
{
    let (tail, head) = (labels[link.tail.index()], labels[link.head.index()]);
    curves.extend(tail, head, step);
}

/// Extends the curves of all links to these labels, by the steps of the links. Memory for a corner of each curve must be reserved, and the
/// curves must end before the labels. Cannot fail.
pub fn extend_links(curves: &mut [LinkCurves], net: &Network, labels: &[Q], steps: &[LinkStep])
    requires labels { length labels.now ≡ net.now.net.nodes }
    requires curves { length curves.old ≡ length net.now.net.links }
    requires steps { length steps.now ≡ length net.now.net.links }
    requires room { AllHaveRoom curves.old }
    requires later { AllLinksEndBefore net.now.net labels.now (all_grown curves.old) steps.now }
    ensures { all_grown curves.new
        ≡ link_curves_after labels.now net.now.net.links (all_grown curves.old) steps.now }
{
    for e in 0..net.link_count() {
        let link = net.link(LinkId(e));
        extend_link(&mut curves[e as usize], &link, labels, &steps[e as usize]);
    }
}
