// The decomposition of a static flow into walks. Each walk starts at the source and follows, from each node, the first link with flow left.
// Its rate is the least flow on its links.
ghost use Rattle.std.specs.Prelude.{◌≡◌, ℕ, ◌<◌, length, set, slice_get, Some, None, unwrap_or, IfOk, OnOk};
ghost use Rattle.std.specs.List.{AllByRecursion};
ghost use Rattle.nf_frac_def.specs.declared.Part.TheVariants.{Quick};
ghost use Rattle.nf_frac_def.specs.Passing.{passes_Q};
ghost use Rattle.nf_frac_def.specs.Checked.{at_part, seen_at, Gives};
ghost use Rattle.nf_quick_walks.specs.Spent.{is_out as is_out_by, IsSpent, AreSpent, HaveFlow};
ghost use Rattle.nf_quick_def.specs.Walks.{first_out as first_out_by, way_out as way_out_by, least_along as least_along_by, take_list, walks_off as walks_off_by};

use crate::rated::Rated;
use nf_frac::{Halt, Part, PassedAt, Q};
use nf_graph::NodeId;
use nf_net::{Link, LinkId, Network};
use nf_residual::{flow_at, put_flow};
use std::alloc::{AllocError, Global};

// Returns whether the link leaves the node and has flow left.
fn is_out(link: Link, node: NodeId, flow: Q) -> bool
    ensures { result ≡ is_out_by link node flow }
{
    link.tail == node && Q::zero().is_below(flow)
}

// Returns the first link out of a node with flow left, or None. The first `spent` links are known to be no such links.
fn first_out(net: &Network, node: NodeId, flows: &[Q], spent: u32) -> Option<LinkId>
    requires flows { length flows.now ≡ length net.now.net.links }
    requires spent { IsSpent net.now.net.links flows.now node spent }
    ensures first { result ≡ first_out_by 0 net.now.net.links node flows.now }
    ensures within { (e : ℕ) → result ≡ Some e → e < length net.now.net.links }
{
    for number in spent..net.link_count() {
        let link = LinkId(number);
        let here = net.link(link);
        if is_out(here, node, flow_at(flows, link)) {
            return Some(link);
        }
    }
    None
}

// Returns how many of the first links precede `found`; all links if nothing was found.
fn spent_before(net: &Network, found: &Option<LinkId>) -> u32
    ensures { result ≡ unwrap_or found.now (length net.now.net.links) }
{
    match found {
        None => net.link_count(),
        Some(link) => link.0,
    }
}

fn spent_at(spent: &[u32], node: NodeId) -> u32
    requires { node < length spent.now }
    ensures { slice_get spent.now node ≡ Some result }
{
    spent[node.index()]
}

fn put_spent(spent: &mut Vec<u32>, node: NodeId, count: u32)
    requires { node < length spent.old.items }
    ensures { spent.new.items ≡ set spent.old.items node count }
{
    spent[node.index()] = count;
}

// Returns the first link out of a node with flow left, and updates the count of spent first links of that node.
fn next_out(net: &Network, node: NodeId, flows: &[Q], spent: &mut Vec<u32>) -> Option<LinkId>
    requires flows { length flows.now ≡ length net.now.net.links }
    requires node { node < length spent.old.items }
    requires spent { AreSpent net.now.net.links flows.now spent.old.items }
    ensures first { result ≡ first_out_by 0 net.now.net.links node flows.now }
    ensures within { (e : ℕ) → result ≡ Some e → e < length net.now.net.links }
    ensures spent { AreSpent net.now.net.links flows.now spent.new.items }
    ensures count { length spent.new.items ≡ length spent.old.items }
{
    let known = spent_at(spent, node);
    let found = first_out(net, node, flows, known);
    let count = spent_before(net, &found);
    put_spent(spent, node, count);
    found
}

// Returns the links from the source on, each the first one with flow left, at most as many as there are nodes.
fn way_out(
    alloc: Global,
    net: &Network,
    flows: &[Q],
    spent: &mut Vec<u32>,
) -> Result<Vec<LinkId>, AllocError>
    requires flows { length flows.now ≡ length net.now.net.links }
    requires spent { AreSpent net.now.net.links flows.now spent.old.items }
    requires count { length spent.old.items ≡ net.now.net.nodes }
    ensures way { IfOk result (λ way. way.items ≡ way_out_by net.now.net flows.now) }
    ensures within { IfOk result
        (λ way. AllByRecursion (λ e. e < length net.now.net.links) way.items) }
    ensures flow { IfOk result (λ way. HaveFlow flows.now way.items) }
    ensures spent { OnOk result (AreSpent net.now.net.links flows.now spent.new.items) }
    ensures count { OnOk result (length spent.new.items ≡ net.now.net.nodes) }
{
    let mut way = Vec::new(alloc);
    let mut node = net.source();
    for _ in 0..net.node_count() {
        let Some(link) = next_out(net, node, flows, spent) else {
            return Ok(way);
        };
        way.push(link)?;
        node = net.link(link).head;
    }
    Ok(way)
}

// Returns the least flow along links, a rate, or 0 for no links.
fn least_along(flows: &[Q], way: &[LinkId]) -> Q
    requires { AllByRecursion (λ e. e < length flows.now) way.now }
    ensures { result ≡ least_along_by flows.now None way.now }
{
    let [first, rest @ ..] = way else {
        return Q::zero();
    };
    let mut least = flow_at(flows, *first);
    for link in rest {
        least = least.lesser(flow_at(flows, *link));
    }
    least
}

// Subtracts a rate from the flow of each of these links. Refuses at the first operation that exceeds its bound.
fn take(flows: &mut Vec<Q>, way: &[LinkId], rate: Q) -> Result<(), PassedAt<Q>>
    requires { AllByRecursion (λ e. e < length flows.old.items) way.now }
    ensures list { seen_at (λ _. flows.new.items) (λ q. q) result
        ≡ at_part Quick (take_list passes_Q rate way.now flows.old.items) }
    ensures count { length flows.new.items ≡ length flows.old.items }
{
    for link in way {
        let link: LinkId = *link;
        let before = flow_at(flows, link);
        let left = nf_frac::at!(Part::Quick, before.difference(rate));
        put_flow(flows, link, left);
    }
    Ok(())
}

// Subtracts the least flow along these links from each of them, and returns the links with that rate.
fn walk_off(flows: &mut Vec<Q>, links: Vec<LinkId>) -> Result<Rated, PassedAt<Q>>
    requires { AllByRecursion (λ e. e < length flows.old.items) links.items }
    ensures list { seen_at (λ _. flows.new.items) (λ q. q) result
        ≡ at_part Quick (take_list passes_Q
        (least_along_by flows.old.items None links.items) links.items flows.old.items) }
    ensures walk { IfOk result (λ rated. rated
        ≡ record { rate = least_along_by flows.old.items None links.items; walk = links.items }) }
    ensures count { length flows.new.items ≡ length flows.old.items }
{
    let rate = least_along(flows, &links);
    take(flows, &links, rate)?;
    Ok(Rated { rate, links })
}

/// Removes walks from these flows until none is left, and returns them. Each walk removes the whole flow of at least one link, so there are
/// at most as many walks as links. A node never examines a spent link again. Refuses with Passed, of the part Quick, at the first
/// subtraction that exceeds its bound. Fails with `Memory` if an allocation fails.
pub fn walks_off(alloc: Global, net: &Network, flows: Vec<Q>) -> Result<Vec<Rated>, Halt<Q>>
    requires { length flows.items ≡ length net.now.net.links }
    ensures { Gives (λ walks. walks.items) (λ q. q) result
        (at_part Quick (walks_off_by passes_Q (length net.now.net.links) net.now.net flows.items)) }
{
    let mut flows = flows;
    let mut spent = vec![in alloc; 0; net.node_count() as usize]?;
    let mut walks = Vec::new(alloc);
    for _ in 0..net.link_count() {
        let links = way_out(alloc, net, &flows, &mut spent)?;
        if links.is_empty() {
            return Ok(walks);
        }
        let rated = walk_off(&mut flows, links)?;
        walks.push(rated)?;
    }
    Ok(walks)
}
