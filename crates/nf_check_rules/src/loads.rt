// Loading of a flow's inflows.
ghost use Rattle.std.specs.Prelude.{◌≡◌, ◌<◌, ℕ, length, IfOk};
ghost use Rattle.nf_frac_def.specs.Passing.{passes_Q};
ghost use Rattle.nf_frac_def.specs.Checked.{each};
ghost use Rattle.std.specs.List.{enumerate_from};
ghost use Rattle.nf_model.specs.Network.{Link, IsLink, IsNetwork};
ghost use Rattle.nf_check_def.specs.Rules.{Inflow, Holds};
ghost use Rattle.nf_check_def.specs.CheckList.{loading};
ghost use Rattle.nf_curve.specs.Flows.{seen_flow};
ghost use Rattle.nf_load.specs.Loadings.{loaded_of};
ghost use Rattle.nf_check_rules.specs.Kept.{points_of_each, loadings_of};
ghost use Rattle.nf_check_rules.specs.Trials.{Tries};

use crate::ended::Ended;
use crate::values::greatest_value;
use crate::worked::{curve_at, trace_at};
use nf_curve::{Curve, Flow};
use nf_graph::LinkId;
use nf_load::{Loaded, load_link};
use nf_net::Network;
use std::alloc::Global;

// Loads a link with its inflow, up to the greater of the greatest labels of its tail and head.
fn load(
    alloc: Global,
    net: &Network,
    flow: &Flow,
    labels: &[Curve],
    link: LinkId,
) -> Result<Loaded, Ended>
    requires link { link < length net.now.net.links }
    requires inflows { length flow.now.inflows.items ≡ length net.now.net.links }
    requires labels { length labels.now ≡ net.now.net.nodes }
    requires inflow { Holds net.now.net (seen_flow flow.now) (Inflow link) }
    ensures { (here : Link) → IsLink net.now.net link here
        → Tries loaded_of result
        (loading passes_Q net.now.net (seen_flow flow.now) (points_of_each labels.now) (link, here)) }
{
    let here = net.link(link);
    let tail = greatest_value(curve_at(labels, here.tail.index()));
    let head = greatest_value(curve_at(labels, here.head.index()));
    let inflow = &trace_at(&flow.inflows, link).curve;
    let loaded = load_link(
        alloc,
        here.transit,
        here.capacity,
        inflow,
        tail.greater(head),
    )?;
    Ok(loaded)
}

/// Loads each link with its inflow, up to the greater of the greatest labels of its tail and head. Each inflow satisfies C1.
pub fn load_links(
    alloc: Global,
    net: &Network,
    flow: &Flow,
    labels: &[Curve],
) -> Result<Vec<Loaded>, Ended>
    requires inflows { length flow.now.inflows.items ≡ length net.now.net.links }
    requires labels { length labels.now ≡ net.now.net.nodes }
    requires hold { (e : ℕ) → e < length net.now.net.links
        → Holds net.now.net (seen_flow flow.now) (Inflow e) }
    ensures list { Tries (λ loaded. loadings_of loaded.items) result
        (each (loading passes_Q net.now.net (seen_flow flow.now) (points_of_each labels.now))
        (enumerate_from 0 net.now.net.links)) }
    ensures count { IfOk result (λ loaded. length loaded.items ≡ length net.now.net.links) }
{
    let mut loaded = Vec::with_capacity(alloc, net.link_count() as usize)?;
    for number in 0..net.link_count() {
        let one = load(alloc, net, flow, labels, LinkId(number))?;
        loaded.push(one)?;
    }
    Ok(loaded)
}
