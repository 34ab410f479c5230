// The flow over time by growing curves.
ghost use Rattle.std.specs.Prelude.{◌≡◌, [], map, IfOk, OnOk};
ghost use Rattle.nf_curve.specs.Flows.{seen_trace, seen_flow};
ghost use Rattle.nf_phase_curves.specs.Growing.{all_grown};
ghost use Rattle.nf_phase_curves.specs.Flows.{with_link, flow_so_far};

use crate::growing::GrowingCurve;
use crate::link_curves::{LinkCurves, LinkFlow};
use nf_curve::{Curve, Flow};
use nf_frac::Q;
use std::alloc::{AllocError, Global};

// Returns the label curves so far, and ends their growth. Fails if an allocation fails.
fn finish_labels(alloc: Global, growing: Vec<GrowingCurve>) -> Result<Vec<Curve>, AllocError>
    ensures { IfOk result (λ curves. map (λ c. c.points) curves.items
        ≡ map (λ c. c.points) (all_grown growing.items)) }
{
    let mut curves = Vec::new(alloc);
    for curve in growing {
        curves.push(curve.finish()?)?;
    }
    Ok(curves)
}

// Returns copies of the label curves so far. Fails if an allocation fails.
fn copy_labels(alloc: Global, growing: &[GrowingCurve]) -> Result<Vec<Curve>, AllocError>
    ensures { IfOk result
        (λ curves. map (λ c. c.points) curves.items ≡ map (λ c. c.points) (all_grown growing.now)) }
{
    let mut curves = Vec::new(alloc);
    for curve in growing {
        curves.push(curve.copy(alloc)?)?;
    }
    Ok(curves)
}

// Returns the flow up to the departure `reached` with these label curves, before the first link.
fn without_links(alloc: Global, reached: Q, labels: Vec<Curve>) -> Flow
    ensures { seen_flow result ≡ record {
      reached = reached;
      labels = map (λ c. c.points) labels.items;
      inflows = [];
      outflows = [];
      queues = [];
    } }
{
    Flow {
        reached,
        labels,
        inflows: Vec::new(alloc),
        outflows: Vec::new(alloc),
        queues: Vec::new(alloc),
    }
}

// Appends the flow of the next link. Fails if an allocation fails.
fn add_link(flow: &mut Flow, link: LinkFlow) -> Result<(), AllocError>
    ensures { OnOk result
        (seen_flow flow.new ≡ with_link (seen_flow flow.old) (seen_trace link.inflow)
        (seen_trace link.outflow) link.queue.points) }
{
    let LinkFlow {
        inflow,
        outflow,
        queue,
    } = link;
    flow.inflows.push(inflow)?;
    flow.outflows.push(outflow)?;
    flow.queues.push(queue)?;
    Ok(())
}

/// Returns the flow over time up to the departure `reached`, and ends the growth of its curves. Fails if an allocation fails.
pub fn finish_flow(
    alloc: Global,
    reached: Q,
    labels: Vec<GrowingCurve>,
    links: Vec<LinkCurves>,
) -> Result<Flow, AllocError>
    ensures { IfOk result (λ flow. seen_flow flow
        ≡ flow_so_far reached (all_grown labels.items) (all_grown links.items)) }
{
    let labels = finish_labels(alloc, labels)?;
    let mut flow = without_links(alloc, reached, labels);
    for curves in links {
        let link = curves.finish()?;
        add_link(&mut flow, link)?;
    }
    Ok(flow)
}

/// Returns a copy of the flow over time up to the departure `reached`; its curves can grow further. Fails if an allocation fails.
pub fn copy_flow(
    alloc: Global,
    reached: Q,
    labels: &[GrowingCurve],
    links: &[LinkCurves],
) -> Result<Flow, AllocError>
    ensures { IfOk result
        (λ flow. seen_flow flow ≡ flow_so_far reached (all_grown labels.now) (all_grown links.now)) }
{
    let labels = copy_labels(alloc, labels)?;
    let mut flow = without_links(alloc, reached, labels);
    for curves in links {
        let link = curves.copy(alloc)?;
        add_link(&mut flow, link)?;
    }
    Ok(flow)
}
