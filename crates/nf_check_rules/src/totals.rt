// Total inflow and outflow of a node.
ghost use Rattle.std.specs.Prelude.{◌≡◌, ◌<◌, length};
ghost use Rattle.nf_frac_def.specs.declared.Part.TheVariants.{Check};
ghost use Rattle.nf_frac_def.specs.Passing.{passes_Q};
ghost use Rattle.nf_frac_def.specs.Checked.{at_part, Gives};
ghost use Rattle.nf_model.specs.Network.{Link, IsLink};
ghost use Rattle.nf_model.specs.Equilibrium.{points_of};
ghost use Rattle.nf_check_def.specs.Curves.{with_outflow as with_outflow_by, total_in as total_in_by, with_inflow as with_inflow_by, total_out as total_out_by};
ghost use Rattle.nf_curve.specs.Flows.{seen_flow};
ghost use Rattle.nf_check_rules.specs.Kept.{loadings_of};

use crate::worked::{loaded_at, trace_at};
use nf_curve::{Curve, Flow};
use nf_frac::{Halt, Part, Q};
use nf_graph::{LinkId, NodeId};
use nf_load::Loaded;
use nf_net::Network;
use std::alloc::Global;

// Adds the outflow of a link to the total so far, if the link leads to the node.
fn with_outflow(
    alloc: Global,
    net: &Network,
    loaded: &[Loaded],
    node: NodeId,
    so_far: Curve,
    link: LinkId,
) -> Result<Curve, Halt<Q>>
    requires link { link < length net.now.net.links }
    requires loaded { length loaded.now ≡ length net.now.net.links }
    ensures { (here : Link) → IsLink net.now.net link here → Gives (λ c. c.points) (λ q. q) result
        (at_part Check
        (with_outflow_by passes_Q (loadings_of loaded.now) node so_far.points (link, here))) }
{
    if net.link(link).head != node {
        return Ok(so_far);
    }
    let outflow = &loaded_at(loaded, link).outflow;
    Curve::sum(alloc, &so_far, outflow, Part::Check)
}

/// Returns the sum of the outflows of the links into a node, by time.
pub(crate) fn total_in(
    alloc: Global,
    net: &Network,
    loaded: &[Loaded],
    node: NodeId,
) -> Result<Curve, Halt<Q>>
    requires { length loaded.now ≡ length net.now.net.links }
    ensures { Gives (λ c. c.points) (λ q. q) result
        (at_part Check (total_in_by passes_Q (loadings_of loaded.now) net.now.net.links node)) }
{
    let mut total = Curve::start(alloc, Q::zero())?;
    for number in 0..net.link_count() {
        total = with_outflow(alloc, net, loaded, node, total, LinkId(number))?;
    }
    Ok(total)
}

// Adds the inflow of a link to the total so far, if the link leaves the node.
fn with_inflow(
    alloc: Global,
    net: &Network,
    flow: &Flow,
    node: NodeId,
    so_far: Curve,
    link: LinkId,
) -> Result<Curve, Halt<Q>>
    requires link { link < length net.now.net.links }
    requires inflows { length flow.now.inflows.items ≡ length net.now.net.links }
    ensures { (here : Link) → IsLink net.now.net link here → Gives (λ c. c.points) (λ q. q) result
        (at_part Check (with_inflow_by passes_Q
        (points_of (seen_flow flow.now).inflows) node so_far.points (link, here))) }
{
    if net.link(link).tail != node {
        return Ok(so_far);
    }
    let inflow = &trace_at(&flow.inflows, link).curve;
    Curve::sum(alloc, &so_far, inflow, Part::Check)
}

/// Returns the sum of the inflows of the links out of a node, by time.
pub(crate) fn total_out(
    alloc: Global,
    net: &Network,
    flow: &Flow,
    node: NodeId,
) -> Result<Curve, Halt<Q>>
    requires { length flow.now.inflows.items ≡ length net.now.net.links }
    ensures { Gives (λ c. c.points) (λ q. q) result
        (at_part Check
        (total_out_by passes_Q (points_of (seen_flow flow.now).inflows) net.now.net.links node)) }
{
    let mut total = Curve::start(alloc, Q::zero())?;
    for number in 0..net.link_count() {
        total = with_inflow(alloc, net, flow, node, total, LinkId(number))?;
    }
    Ok(total)
}
