// The test of each node by ranges of the links' flows: whether the links can carry what conservation of flow needs there.
ghost use Rattle.std.specs.Prelude.{◌≡◌, ◌<◌, ℕ, suc, true, length, slice_get, slice_set, Some, None, IfOk};
ghost use Rattle.nf_rational.specs.Rational.{ℚ};
ghost use Rattle.nf_thin_balance.specs.Ranges.{IsInRange};
ghost use Rattle.nf_thin_balance.specs.LinksAt.{HasLinks};
ghost use Rattle.nf_thin_balance.specs.Conserving.{AreFlowsWithin, IsConserved, BoundsFirst, BoundEach, AreSurpluses, surplus_by, needed_at};

use crate::links_at::LinksAt;
use crate::ranges::Range;
use nf_graph::{LinkId, NodeId};
use nf_net::Network;
use std::alloc::{AllocError, Global};

/// Returns the range of a link's flow.
pub(crate) fn range_at(ranges: &[Range], link: LinkId) -> Range
    requires { link < length ranges.now }
    ensures { slice_get ranges.now link ≡ Some result }
{
    ranges[link.index()]
}

// Adds a link to the range of a node's surplus. The range bounds the outflow less the inflow on the links before this one.
fn add_link(range: &mut Range, net: &Network, ranges: &[Range], node: NodeId, link: LinkId)
    requires link { link < length net.now.net.links }
    requires ranges { length ranges.now ≡ length net.now.net.links }
    requires before { BoundsFirst net.now.net ranges.now node link range.old }
    ensures { BoundsFirst net.now.net ranges.now node (suc link) range.new }
{
    let hop = &net.hops()[link.index()];
    let leaves = hop.tail == node;
    let enters = hop.head == node;
    if leaves == enters {
        return;
    }
    let flow = range_at(ranges, link);
    if flow.is_nothing() {
        return;
    }
    if leaves {
        *range = range.sum(flow);
        return;
    }
    *range = range.difference(flow);
}

/// Returns a range of the node's surplus, its outflow less its inflow, if every link's flow is within its range. Visits the links at the
/// node alone.
pub(crate) fn surplus_range(net: &Network, links: &LinksAt, ranges: &[Range], node: NodeId) -> Range
    requires links { HasLinks net.now.net links.now }
    requires ranges { length ranges.now ≡ length net.now.net.links }
    requires node { node < net.now.net.nodes }
    ensures { (flow : ℕ → ℚ) → AreFlowsWithin ranges.now flow
        → IsInRange result (surplus_by net.now.net flow node) }
{
    let mut range = Range::zero();
    let mut link = links.first(net, node);
    while link < net.link_count() {
        add_link(&mut range, net, ranges, node, LinkId(link));
        link = links.next(net, node, LinkId(link));
    }
    range
}

/// Returns a range of the surplus that a node needs: `supply` at the source, minus `supply` at the sink, and 0 elsewhere.
pub(crate) fn needed(net: &Network, supply: Range, node: NodeId) -> Range
    ensures { (rate : ℚ) → IsInRange supply rate
        → IsInRange result (needed_at net.now.net rate node) }
{
    let takes = node == net.sink();
    if takes {
        return Range::zero().difference(supply);
    }
    let sends = node == net.source();
    if sends { supply } else { Range::zero() }
}

// Returns the range of a node's surplus.
fn surplus_at(nodes: &[Range], node: NodeId) -> Range
    requires { node < length nodes.now }
    ensures { slice_get nodes.now node ≡ Some result }
{
    nodes[node.index()]
}

// Sets the range of a node's surplus.
fn put_surplus(nodes: &mut Vec<Range>, node: NodeId, surplus: Range)
    requires { node < length nodes.old.items }
    ensures { nodes.new.items ≡ slice_set nodes.old.items node surplus }
{
    nodes[node.index()] = surplus;
}

// Adds a link's flow to the surplus of its tail, and subtracts it from that of its head.
fn add_to_ends(nodes: &mut Vec<Range>, net: &Network, ranges: &[Range], link: LinkId)
    requires link { link < length net.now.net.links }
    requires ranges { length ranges.now ≡ length net.now.net.links }
    requires nodes { length nodes.old.items ≡ net.now.net.nodes }
    requires before { BoundEach net.now.net ranges.now link nodes.old.items }
    ensures count { length nodes.new.items ≡ net.now.net.nodes }
    ensures more { BoundEach net.now.net ranges.now (suc link) nodes.new.items }
{
    let hop = &net.hops()[link.index()];
    let looped = hop.tail == hop.head;
    if looped {
        return;
    }
    let flow = range_at(ranges, link);
    if flow.is_nothing() {
        return;
    }
    let sent = surplus_at(nodes, hop.tail);
    put_surplus(nodes, hop.tail, sent.sum(flow));
    let kept = surplus_at(nodes, hop.head);
    put_surplus(nodes, hop.head, kept.difference(flow));
}

// Returns ranges of the surplus of each node, if every link's flow is within its range. Visits each link once. Fails if an allocation
// fails.
fn surplus_ranges(alloc: Global, net: &Network, ranges: &[Range]) -> Result<Vec<Range>, AllocError>
    requires ranges { length ranges.now ≡ length net.now.net.links }
    ensures count { IfOk result (λ nodes. length nodes.items ≡ net.now.net.nodes) }
    ensures each { IfOk result (λ nodes. (flow : ℕ → ℚ) → AreFlowsWithin ranges.now flow
        → AreSurpluses net.now.net nodes.items flow) }
{
    let nothing = Range::zero();
    let mut nodes = vec![in alloc; nothing; net.node_count() as usize]?;
    for e in 0..net.link_count() {
        add_to_ends(&mut nodes, net, ranges, LinkId(e));
    }
    Ok(nodes)
}

// Returns whether the needed surplus of a node can be within the range of its surplus.
fn is_balanced(net: &Network, supply: Range, nodes: &[Range], node: NodeId) -> bool
    requires node { node < net.now.net.nodes }
    requires nodes { length nodes.now ≡ net.now.net.nodes }
    ensures { (flow : ℕ → ℚ) → AreSurpluses net.now.net nodes.now flow
        → IsConserved net.now.net supply flow → result ≡ true }
{
    surplus_at(nodes, node).meets(&needed(net, supply, node))
}

// Returns the first node whose needed surplus cannot be within its range, or `None`.
fn first_failing(net: &Network, supply: Range, nodes: &[Range]) -> Option<NodeId>
    requires { length nodes.now ≡ net.now.net.nodes }
    ensures { (flow : ℕ → ℚ) → AreSurpluses net.now.net nodes.now flow
        → IsConserved net.now.net supply flow → result ≡ None }
{
    for v in 0..net.node_count() {
        if !is_balanced(net, supply, nodes, NodeId(v)) {
            return Some(NodeId(v));
        }
    }
    None
}

/// Returns the first node that rules out a conserved flow, or `None`. Fails if an allocation fails.
pub(crate) fn first_unbalanced(
    alloc: Global,
    net: &Network,
    supply: Range,
    ranges: &[Range],
) -> Result<Option<NodeId>, AllocError>
    requires { length ranges.now ≡ length net.now.net.links }
    ensures { IfOk result (λ found. (flow : ℕ → ℚ) → AreFlowsWithin ranges.now flow
        → IsConserved net.now.net supply flow → found ≡ None) }
{
    let nodes = surplus_ranges(alloc, net, ranges)?;
    Ok(first_failing(net, supply, &nodes))
}
