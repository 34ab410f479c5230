// The flows of links, for the slopes that solve a pattern's table. A Full or resetting link fills its capacity. The Tight links form a
// forest, and conservation of flow determines their flows from the leaves inward. No contract depends on these flows, since a guess is
// judged like any other pattern.
ghost use Rattle.std.specs.Prelude.{◌≡◌, ◌<◌, length, IsSome, IfOk, IfSome};
ghost use Rattle.nf_model.specs.declared.State.TheVariants.{Full};
ghost use Rattle.nf_model.specs.Network.{Link as SeenLink, IsLink};
ghost use Rattle.nf_thin_equation_laws.specs.Equations.{IsPatternIn};
ghost use Rattle.nf_thin_guess.specs.Values.{AreComplete};

use crate::node_parts::state_in;
use crate::numbers::{add_at, number_or_zero, set_at, take_off_at};
use crate::values::Values;
use nf_frac::{Halt, Part, Q, at};
use nf_graph::{LinkId, LinkSets, NodeId};
use nf_model::State;
use nf_net::{Link, MOST_NODES, Network};
use nf_pattern::Pattern;
use std::alloc::Global;

// The undetermined flows, those of Tight links. `missing` has for each node the outflow less the inflow that its undetermined links must
// carry. `degrees` has the number of undetermined links at each node, and `links` the exclusive or of their numbers. Once a node has one
// such link, this is its number. `count` is the number of undetermined links in all.
#[derive(Drop)]
struct OpenFlows {
    sink: NodeId,
    missing: Vec<Q>,
    degrees: [u32; MOST_NODES],
    links: [u32; MOST_NODES],
    count: u32,
}

// Returns a link's flow if `leaving` leaves one end on the link, and the other end.
fn flow_from(link: Link, end: NodeId, leaving: Q) -> Result<(Q, NodeId), Halt<Q>> {
    if link.tail == end {
        return Ok((leaving, link.head));
    }
    let flow = at!(Part::Table, Q::zero().difference(leaving));
    Ok((flow, link.tail))
}

impl OpenFlows {
    // Returns the undetermined flows before any link carries flow or is undetermined.
    fn new(alloc: Global, net: &Network, rate: Q) -> Result<OpenFlows, Halt<Q>> {
        let mut missing = vec![in alloc; Q::zero(); net.node_count() as usize]?;
        add_at(&mut missing, net.source().index(), rate)?;
        Ok(OpenFlows {
            sink: net.sink(),
            missing,
            degrees: [0; MOST_NODES],
            links: [0; MOST_NODES],
            count: 0,
        })
    }

    // Records the flow of a determined link at both ends.
    fn carry(&mut self, tail: NodeId, head: NodeId, flow: Q) -> Result<(), Halt<Q>> {
        if flow.is_zero() {
            return Ok(());
        }
        take_off_at(&mut self.missing, tail.index(), flow)?;
        add_at(&mut self.missing, head.index(), flow)
    }

    // Adds an undetermined link at a node.
    fn open_at(&mut self, node: NodeId, link: LinkId) {
        if node.index() < MOST_NODES {
            self.degrees[node.index()] = self.degrees[node.index()].saturating_add(1);
            self.links[node.index()] ^= link.0;
        }
    }

    // Removes an undetermined link at a node.
    fn close_at(&mut self, node: NodeId, link: LinkId) {
        if node.index() < MOST_NODES {
            self.degrees[node.index()] = self.degrees[node.index()].saturating_sub(1);
            self.links[node.index()] ^= link.0;
        }
    }

    // Adds an undetermined link.
    fn open(&mut self, id: LinkId, link: Link) {
        self.open_at(link.tail, id);
        self.open_at(link.head, id);
        self.count = self.count.saturating_add(1);
    }

    // Records the flow of a link that was undetermined.
    fn close(&mut self, id: LinkId, link: Link, flow: Q) -> Result<(), Halt<Q>> {
        self.carry(link.tail, link.head, flow)?;
        self.close_at(link.tail, id);
        self.close_at(link.head, id);
        self.count = self.count.saturating_sub(1);
        Ok(())
    }

    // Returns the only undetermined link at a node. Returns `None` if the node has none or several, or is the sink, which has no equation.
    fn last_at(&self, net: &Network, node: NodeId) -> Option<LinkId>
        ensures { IfSome result (λ link. link < length net.now.net.links) }
    {
        if node == self.sink || node.index() >= MOST_NODES || self.degrees[node.index()] != 1 {
            return None;
        }
        let link = self.links[node.index()];
        if link < net.link_count() {
            Some(LinkId(link))
        } else {
            None
        }
    }

    // Determines the flow of the last link at a node by what is missing there. Returns the link's other end.
    fn close_last(
        &mut self,
        net: &Network,
        id: LinkId,
        node: NodeId,
        flows: &mut [Q],
    ) -> Result<NodeId, Halt<Q>>
        requires { id < length net.now.net.links }
    {
        let link = net.link(id);
        let missing = number_or_zero(&self.missing, node.index());
        let (flow, other) = flow_from(link, node, missing)?;
        set_at(flows, id.index(), flow);
        self.close(id, link, flow)?;
        Ok(other)
    }

    // Determines flows from a node on, while the node that is reached has one undetermined link.
    fn close_from(&mut self, net: &Network, start: NodeId, flows: &mut [Q]) -> Result<(), Halt<Q>> {
        let mut node = start;
        for _ in 0..net.node_count() {
            let Some(link) = self.last_at(net, node) else {
                return Ok(());
            };
            node = self.close_last(net, link, node, flows)?;
        }
        Ok(())
    }

    // Determines the flows from the leaves inward.
    fn close_all(&mut self, net: &Network, flows: &mut [Q]) -> Result<(), Halt<Q>> {
        let nodes = net.node_count();
        for v in 0..nodes {
            self.close_from(net, NodeId(nodes - 1 - v), flows)?;
        }
        Ok(())
    }
}

// Returns the flow that fills a link: its capacity times the slope of its head. Records it at both ends.
fn fill(link: Link, head_slope: Q, undetermined: &mut OpenFlows) -> Result<Q, Halt<Q>>
    requires { IsSome link.capacity }
{
    let capacity = link.capacity.unwrap();
    let flow = at!(Part::Table, capacity.product(head_slope));
    undetermined.carry(link.tail, link.head, flow)?;
    Ok(flow)
}

// Returns the flow of an active link in its state. A Tight link gets 0 and is undetermined.
fn flow_of(
    net: &Network,
    link: LinkId,
    state: State,
    slopes: &[Q],
    undetermined: &mut OpenFlows,
) -> Result<Q, Halt<Q>>
    requires link { link < length net.now.net.links }
    requires bounded { state ≡ Full → (here : SeenLink) → IsLink net.now.net link here
        → IsSome here.capacity }
    requires slopes { length slopes.now ≡ net.now.net.nodes }
{
    let here = net.link(link);
    match state {
        State::Tight => {
            undetermined.open(link, here);
            Ok(Q::zero())
        }
        State::Zero => Ok(Q::zero()),
        State::Full => fill(here, slopes[here.head.index()], undetermined),
    }
}

// Sets the flow of each active link.
fn put_flows(
    net: &Network,
    sets: &LinkSets,
    pattern: &Pattern,
    slopes: &[Q],
    flows: &mut [Q],
    undetermined: &mut OpenFlows,
) -> Result<(), Halt<Q>>
    requires pattern { IsPatternIn net.now.net sets.now pattern.now }
    requires slopes { length slopes.now ≡ net.now.net.nodes }
    requires flows { length flows.old ≡ length net.now.net.links }
{
    for e in 0..net.link_count() {
        if let Some(state) = state_in(sets, pattern, LinkId(e)) {
            let flow = flow_of(net, LinkId(e), state, slopes, undetermined)?;
            flows[e as usize] = flow;
        }
    }
    Ok(())
}

/// Returns these slopes with the flows of the links. Returns `None` if Tight links close a cycle.
pub(crate) fn with_flows(
    alloc: Global,
    net: &Network,
    sets: &LinkSets,
    rate: Q,
    pattern: &Pattern,
    slopes: Vec<Q>,
) -> Result<Option<Values>, Halt<Q>>
    requires pattern { IsPatternIn net.now.net sets.now pattern.now }
    requires slopes { length slopes.items ≡ net.now.net.nodes }
    ensures { IfOk result (λ found. IfSome found (λ values. AreComplete net.now.net values)) }
{
    let mut flows = vec![in alloc; Q::zero(); net.link_count() as usize]?;
    let mut undetermined = OpenFlows::new(alloc, net, rate)?;
    put_flows(net, sets, pattern, &slopes, &mut flows, &mut undetermined)?;
    undetermined.close_all(net, &mut flows)?;
    if undetermined.count == 0 {
        Ok(Some(Values { slopes, flows }))
    } else {
        Ok(None)
    }
}
