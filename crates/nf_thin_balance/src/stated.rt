// The range of each link's flow by its state, and the test of one node by these ranges.
ghost use Rattle.std.specs.Prelude.{◌≡◌, ◌<◌, ℕ, suc, true, List, length, IfOk};
ghost use Rattle.nf_rational.specs.Rational.{ℚ};
ghost use Rattle.nf_model.specs.Entries.{number_at};
ghost use Rattle.nf_thin_balance.specs.Ranges.{IsInRange, scaled};
ghost use Rattle.nf_thin_balance.specs.Conserving.{AreFlowsWithin, surplus_by, surplus_of_first, scaled_flow};
ghost use Rattle.nf_thin_balance.specs.Stating.{IsStated, CanCarryFlows};

use crate::node_test::{needed, range_at};
use crate::ranges::{Range, flow_range};
use nf_graph::{LinkId, LinkSets, NodeId};
use nf_net::Network;
use nf_pattern::Pattern;
use std::alloc::{AllocError, Global};

/// A borrowed view of a pattern of a network and its sets. `full` has the range of the scaled flow that fills each link.
#[derive(Clone, Copy)]
pub(crate) struct Stated<'a> {
    pub(crate) net: &'a Network,
    pub(crate) sets: &'a LinkSets,
    pub(crate) full: &'a [Range],
    pub(crate) pattern: &'a Pattern,
}

// Returns the range of a link's scaled flow in its state.
fn range_of(stated: &Stated, link: LinkId) -> Range
    requires stated { IsStated stated.now }
    requires link { link < length stated.now.net.now.net.links }
    ensures { (scale : ℕ) (rate : ℚ) (flows : List ℚ) → CanCarryFlows scale stated.now rate flows
        → IsInRange result (scaled scale (number_at flows link)) }
{
    let most = range_at(stated.full, link);
    flow_range(
        stated.pattern.state(link),
        stated.sets.resetting(link),
        most,
    )
}

/// Returns the range of each link's scaled flow in its state, in link order. Fails if an allocation fails.
pub(crate) fn link_ranges(alloc: Global, stated: &Stated) -> Result<Vec<Range>, AllocError>
    requires { IsStated stated.now }
    ensures count { IfOk result
        (λ ranges. length ranges.items ≡ length stated.now.net.now.net.links) }
    ensures carry { IfOk result
        (λ ranges. (scale : ℕ) (rate : ℚ) (flows : List ℚ) → CanCarryFlows scale stated.now rate flows
        → AreFlowsWithin ranges.items (scaled_flow scale flows)) }
{
    let mut ranges = Vec::with_capacity(alloc, stated.net.link_count() as usize)?;
    for e in 0..stated.net.link_count() {
        ranges.push(range_of(stated, LinkId(e)))?;
    }
    Ok(ranges)
}

// Returns the range of a node's surplus with a link in its state. `range` bounds the outflow less the inflow on the links before this one.
fn with_link(range: Range, stated: &Stated, node: NodeId, link: LinkId) -> Range
    requires stated { IsStated stated.now }
    requires link { link < length stated.now.net.now.net.links }
    ensures { (scale : ℕ) (rate : ℚ) (flows : List ℚ) → CanCarryFlows scale stated.now rate flows
        → IsInRange range
        (surplus_of_first stated.now.net.now.net (scaled_flow scale flows) node link)
        → IsInRange result
        (surplus_of_first stated.now.net.now.net (scaled_flow scale flows) node (suc link)) }
{
    let hop = &stated.net.hops()[link.index()];
    let leaves = hop.tail == node;
    let enters = hop.head == node;
    if leaves == enters {
        return range;
    }
    let flow = range_of(stated, link);
    if leaves {
        range.sum(flow)
    } else {
        range.difference(flow)
    }
}

// Returns a range of the node's surplus, if every link's flow is possible in its state.
fn stated_surplus(stated: &Stated, node: NodeId) -> Range
    requires { IsStated stated.now }
    ensures { (scale : ℕ) (rate : ℚ) (flows : List ℚ) → CanCarryFlows scale stated.now rate flows
        → IsInRange result (surplus_by stated.now.net.now.net (scaled_flow scale flows) node) }
{
    let mut range = Range::zero();
    for e in 0..stated.net.link_count() {
        range = with_link(range, stated, node, LinkId(e));
    }
    range
}

/// Returns whether the states at a node rule out a conserved flow. The answer false decides nothing, and is given for a node that the
/// network lacks.
pub(crate) fn fails_at(stated: &Stated, supply: Range, node: NodeId) -> bool
    requires { IsStated stated.now }
    ensures { result ≡ true → (scale : ℕ) (rate : ℚ) (flows : List ℚ)
        → IsInRange supply (scaled scale rate)
        → CanCarryFlows scale stated.now rate flows → ⊥ }
{
    let nodes = stated.net.node_count();
    if node.0 >= nodes {
        return false;
    }
    let range = stated_surplus(stated, node);
    !range.meets(&needed(stated.net, supply, node))
}
