// A test of Tight links by conservation of flow, for known slopes. If all links but one at a node have a known flow, conservation
// determines that of the last link. Applied from the leaves inward, conservation determines the flow of every link of a forest.
ghost use Rattle.std.specs.Prelude.{◌≡◌, ◌<◌, ℕ, true, length, slice_get, slice_set, Some, None, IfOk, IfSome, MatchBool};
ghost use Rattle.nf_rational.specs.Rational.{ℚ};
ghost use Rattle.nf_rational.specs.Operations.{◌+ℚ◌, ◌-ℚ◌};
ghost use Rattle.nf_model.specs.Network.{IsNetwork};
ghost use Rattle.nf_thin_balance.specs.Ranges.{IsInRange};
ghost use Rattle.nf_thin_balance.specs.LinksAt.{HasLinks};
ghost use Rattle.nf_thin_balance.specs.Conserving.{AreFlowsWithin, IsConserved, KeepsFlows};

use crate::links_at::LinksAt;
use crate::node_test::{first_unbalanced, needed, range_at, surplus_range};
use crate::ranges::Range;
use nf_graph::{LinkId, NodeId};
use nf_net::Network;
use std::alloc::{AllocError, Global};

// The undetermined links at a node: their number, and the sum of their link numbers. If there is one, the sum is its link number. No
// contract depends on these counts.
#[derive(Clone, Copy)]
struct OpenAt {
    links: u32,
    sum: u32,
}

// Adds an undetermined link at a node.
fn open_at(open: &mut Vec<OpenAt>, node: NodeId, link: u32) {
    if node.index() < open.len() {
        let here = open[node.index()];
        open[node.index()] = OpenAt {
            links: here.links.saturating_add(1),
            sum: here.sum.saturating_add(link),
        };
    }
}

// Removes a determined link from the undetermined links at a node.
fn close_at(open: &mut Vec<OpenAt>, node: NodeId, link: u32) {
    if node.index() < open.len() {
        let here = open[node.index()];
        open[node.index()] = OpenAt {
            links: here.links.saturating_sub(1),
            sum: here.sum.saturating_sub(link),
        };
    }
}

// Returns the undetermined links at each node. Fails if an allocation fails.
fn open_links(alloc: Global, net: &Network, ranges: &[Range]) -> Result<Vec<OpenAt>, AllocError> {
    let none = OpenAt { links: 0, sum: 0 };
    let mut open = vec![in alloc; none; net.node_count() as usize]?;
    let mut link: u32 = 0;
    for (hop, range) in net.hops().iter().zip(ranges.iter()) {
        if hop.tail != hop.head && !range.is_one() {
            open_at(&mut open, hop.tail, link);
            open_at(&mut open, hop.head, link);
        }
        link = link.saturating_add(1);
    }
    Ok(open)
}

// Returns the only undetermined link at a node, or `None` if there is none or more than one.
fn only_open(net: &Network, open: &[OpenAt], node: NodeId) -> Option<LinkId>
    ensures { IfSome result (λ link. link < length net.now.net.links) }
{
    if node.index() >= open.len() {
        return None;
    }
    let here = open[node.index()];
    if here.links == 1 && here.sum < net.link_count() {
        Some(LinkId(here.sum))
    } else {
        None
    }
}

// Returns the flow left for a link that leaves or enters a node. `needed` is the node's surplus, and `others` the surplus of its other
// links.
fn left_for(leaves: bool, needed: Range, others: Range) -> Range
    ensures { (x s n : ℚ) → IsInRange others s → IsInRange needed n
        → MatchBool leaves (s +ℚ x ≡ n) (s -ℚ x ≡ n) → IsInRange result x }
{
    if leaves {
        needed.difference(others)
    } else {
        others.difference(needed)
    }
}

// Sets the range of a link's flow.
fn put_range(ranges: &mut Vec<Range>, link: LinkId, range: Range)
    requires { link < length ranges.old.items }
    ensures { ranges.new.items ≡ slice_set ranges.old.items link range }
{
    ranges[link.index()] = range;
}

// Sets a link's flow to what conservation at a node leaves for it. Returns false if the link cannot carry that flow.
fn close(
    net: &Network,
    links: &LinksAt,
    supply: Range,
    ranges: &mut Vec<Range>,
    node: NodeId,
    link: LinkId,
) -> bool
    requires links { HasLinks net.now.net links.now }
    requires node { node < net.now.net.nodes }
    requires link { link < length net.now.net.links }
    requires ranges { length ranges.old.items ≡ length net.now.net.links }
    ensures count { length ranges.new.items ≡ length net.now.net.links }
    ensures keeps { KeepsFlows net.now.net supply ranges.old.items ranges.new.items result }
{
    let hop = &net.hops()[link.index()];
    let leaves = hop.tail == node;
    let enters = hop.head == node;
    if leaves == enters {
        return true;
    }
    let own = range_at(ranges, link);
    put_range(ranges, link, Range::zero());
    let others = surplus_range(net, links, ranges, node);
    let flow = left_for(leaves, needed(net, supply, node), others);
    let fits = own.meets(&flow);
    put_range(ranges, link, flow);
    fits
}

// Returns the other end of a link.
fn other_end(net: &Network, link: LinkId, node: NodeId) -> NodeId
    requires link { link < length net.now.net.links }
    ensures { result < net.now.net.nodes }
{
    let hop = &net.hops()[link.index()];
    if hop.tail == node { hop.head } else { hop.tail }
}

// Determines links from a node on, while the current node has only one undetermined link. Returns false if a link cannot carry its flow.
fn close_from(
    net: &Network,
    links: &LinksAt,
    supply: Range,
    ranges: &mut Vec<Range>,
    open: &mut Vec<OpenAt>,
    start: NodeId,
) -> bool
    requires links { HasLinks net.now.net links.now }
    requires start { start < net.now.net.nodes }
    requires ranges { length ranges.old.items ≡ length net.now.net.links }
    ensures count { length ranges.new.items ≡ length net.now.net.links }
    ensures keeps { KeepsFlows net.now.net supply ranges.old.items ranges.new.items result }
{
    let mut node = start;
    for _ in 0..net.node_count() {
        let Some(link) = only_open(net, open, node) else {
            return true;
        };
        if !close(net, links, supply, ranges, node, link) {
            return false;
        }
        let other = other_end(net, link, node);
        close_at(open, node, link.0);
        close_at(open, other, link.0);
        node = other;
    }
    true
}

/// Determines flows from the leaves inward, and narrows `ranges` to them. Returns true if some flow within the old ranges is conserved at
/// every node. Fails if an allocation fails.
pub(crate) fn comes_out(
    alloc: Global,
    net: &Network,
    supply: Range,
    ranges: &mut Vec<Range>,
) -> Result<bool, AllocError>
    requires { length ranges.old.items ≡ length net.now.net.links }
    ensures { IfOk result (λ fits. (flow : ℕ → ℚ) → AreFlowsWithin ranges.old.items flow
        → IsConserved net.now.net supply flow → fits ≡ true) }
{
    let links = LinksAt::new(alloc, net)?;
    let mut open = open_links(alloc, net, ranges)?;
    for v in 0..net.node_count() {
        if !close_from(net, &links, supply, ranges, &mut open, NodeId(v)) {
            return Ok(false);
        }
    }
    match first_unbalanced(alloc, net, supply, ranges)? {
        Some(_) => Ok(false),
        None => Ok(true),
    }
}
