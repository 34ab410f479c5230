// Residual arcs of a static flow, with their end nodes.
ghost use Rattle.std.specs.Prelude.{◌≡◌, ◌<◌, ◌++◌, length, get_or, IfOk, OnOk};
ghost use Rattle.nf_residual.specs.Legs.{leg_of, legs_from, AreLegs};
ghost use Rattle.nf_residual.specs.Chains.{AreChains};

use crate::flows::flow_at;
use crate::length::Length;
use crate::step::{Step, begin_of, can_go, end_of};
use nf_frac::Q;
use nf_graph::{LinkId, NodeId};
use nf_net::{Link, Network};
use std::alloc::{AllocError, Global};

/// A residual arc: its step, the nodes where it begins and ends, and the transit time of its link.
#[derive(Drop)]
pub(crate) struct Leg {
    pub step: Step,
    pub begin: NodeId,
    pub end: NodeId,
    pub transit: Length,
}

// Appends the residual arc of a step along this link, or back along it, if this flow leaves it residual capacity.
fn add_leg(
    legs: &mut Vec<Leg>,
    number: LinkId,
    forward: bool,
    link: &Link,
    flow: &Q,
) -> Result<(), AllocError>
    ensures { OnOk result
        (legs.new.items ≡ legs.old.items ++ leg_of forward number link.now flow.now) }
{
    if can_go(forward, &link.capacity, flow) {
        legs.push(Leg {
            step: Step {
                link: number,
                forward,
            },
            begin: begin_of(forward, link),
            end: end_of(forward, link),
            transit: Length::of(link.transit),
        })?;
    }
    Ok(())
}

/// Returns the residual arcs of a flow in the order of the link numbers, for each link the forward arc before the backward one. Fails if an
/// allocation fails.
pub(crate) fn legs_of(alloc: Global, net: &Network, flows: &[Q]) -> Result<Vec<Leg>, AllocError>
    requires { length flows.now ≡ length net.now.net.links }
    ensures legs { IfOk result (λ legs. legs.items ≡ legs_from 0 net.now.net.links flows.now) }
    ensures within { IfOk result (λ legs. AreLegs net.now.net.nodes legs.items) }
{
    net.recall();
    let mut legs = Vec::with_capacity(alloc, 2 * net.link_count() as usize)?;
    for e in 0..net.link_count() {
        let number = LinkId(e);
        let link = net.link(number);
        let flow = flow_at(flows, number);
        add_leg(&mut legs, number, true, &link, &flow)?;
        add_leg(&mut legs, number, false, &link, &flow)?;
    }
    Ok(legs)
}

/// Residual arcs in the order of the link numbers, chained by the nodes where they begin. `first` has the index of the first arc of each
/// node, `next` the index of the next arc of the same node after each arc. The number of arcs stands for no arc.
#[derive(Drop)]
pub(crate) struct Arcs {
    pub legs: Vec<Leg>,
    pub first: Vec<usize>,
    pub next: Vec<usize>,
}

impl Arcs {
    /// Chains residual arcs of a network with this number of nodes. Fails if an allocation fails.
    pub(crate) fn of(alloc: Global, nodes: u32, legs: Vec<Leg>) -> Result<Arcs, AllocError>
        requires { AreLegs nodes legs.items }
        ensures legs { IfOk result (λ arcs. arcs.legs.items ≡ legs.items) }
        ensures chains { IfOk result
            (λ arcs. AreChains nodes arcs.legs.items arcs.first.items arcs.next.items) }
    {
        let mut first = vec![in alloc; legs.len(); nodes as usize]?;
        let mut next = vec![in alloc; legs.len(); legs.len()]?;
        let mut left = legs.len();
        while left > 0 {
            left -= 1;
            let begin = legs[left].begin.index();
            next[left] = first[begin];
            first[begin] = left;
        }
        Ok(Arcs { legs, first, next })
    }

    /// Returns the index of the first arc of a node.
    pub(crate) fn first_of(&self, node: usize) -> usize
        requires { node < length self.now.first.items }
        ensures { result ≡ get_or self.now.first.items node 0 }
    {
        self.first[node]
    }

    /// Returns the index of the next arc of the same node.
    pub(crate) fn after(&self, arc: usize) -> usize
        requires { arc < length self.now.next.items }
        ensures { result ≡ get_or self.now.next.items arc 0 }
    {
        self.next[arc]
    }
}
