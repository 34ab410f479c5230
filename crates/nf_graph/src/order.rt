// Orders of the nodes along chosen links, and cycles, of which a cycle of zero transit is one.
ghost use Rattle.std.specs.Prelude.{◌≡◌, ◌↔◌, ◌^◌, ◌<◌, ℕ, List, length, map, IfOk, IsNone, IfSome, MatchBool, MatchOption, slice_get, Some};
ghost use Rattle.nf_rational.specs.Operations.{0ℚ};
ghost use Rattle.nf_frac.specs.Order.{same_ℚ};
ghost use Rattle.nf_model.specs.Entries.{Has};
ghost use Rattle.nf_graph.specs.Graph.{AreBelow};
ghost use Rattle.nf_graph.specs.Order.{IsOrder, IsChosenCycle, IsZeroCycle, EntersFromUnplaced, NoneEnters, IsFirstEntering, AreSearched, IsReady, IsStuck, Turns};
ghost use Rattle.nf_graph.specs.Found.{IsFound};

use crate::ids::{Hop, LinkId, NodeId};
use nf_frac::Q;
use std::alloc::{AllocError, Global};

// Returns whether the hop leads to this node from one that is not placed.
fn leads_in(hop: &Hop, placed: &[bool], node: NodeId) -> bool
    requires { hop.now.tail < length placed.now }
    ensures { MatchBool result ((hop.now.head ≡ node) × (Has placed.now hop.now.tail → ⊥))
        (hop.now.head ≡ node → Has placed.now hop.now.tail) }
{
    let tail = hop.tail;
    hop.head == node && !placed[tail.index()]
}

// Returns the first link from number `start` on that is chosen and leads to this node from one that is not placed. Returns None if
// there is none.
fn entering_from(
    hops: &[Hop],
    chosen: &[bool],
    placed: &[bool],
    node: NodeId,
    start: usize,
) -> Option<LinkId>
    requires ends { AreBelow (length placed.now) hops.now }
    requires count { length chosen.now ≡ length hops.now }
    requires fewer { length hops.now < 2 ^ 32 }
    requires before { NoneEnters hops.now chosen.now placed.now node start }
    ensures { MatchOption result (NoneEnters hops.now chosen.now placed.now node (length hops.now))
        (λ e. IsFirstEntering hops.now chosen.now placed.now node e) }
{
    for e in start..hops.len() {
        let hop = &hops[e];
        if chosen[e] {
            if leads_in(hop, placed, node) {
                return Some(LinkId(e as u32));
            }
        }
    }
    None
}

// Returns whether the node is not placed, and no chosen link leads to it from one that is not placed. The links before number
// `searched` do not; the number rises to the first link that does.
fn is_ready(
    hops: &[Hop],
    chosen: &[bool],
    placed: &[bool],
    node: NodeId,
    searched: &mut usize,
) -> bool
    requires ends { AreBelow (length placed.now) hops.now }
    requires count { length chosen.now ≡ length hops.now }
    requires fewer { length hops.now < 2 ^ 32 }
    requires below { node < length placed.now }
    requires searched { NoneEnters hops.now chosen.now placed.now node searched.old }
    ensures ready { MatchBool result (IsReady hops.now chosen.now placed.now node)
        ((Has placed.now node → ⊥) → (e : ℕ) × EntersFromUnplaced hops.now chosen.now placed.now e node) }
    ensures searched { NoneEnters hops.now chosen.now placed.now node searched.new }
{
    if placed[node.index()] {
        return false;
    }
    match entering_from(hops, chosen, placed, node, *searched) {
        None => true,
        Some(link) => {
            *searched = link.index();
            false
        }
    }
}

// Returns a node that may be placed next. Returns None if there is none. No link before the number searched of a node enters it.
fn next_ready(
    hops: &[Hop],
    chosen: &[bool],
    placed: &[bool],
    searched: &mut [usize],
) -> Option<NodeId>
    requires ends { AreBelow (length placed.now) hops.now }
    requires count { length chosen.now ≡ length hops.now }
    requires fewer { length hops.now < 2 ^ 32 }
    requires nodes { length placed.now < 2 ^ 32 }
    requires searched { AreSearched hops.now chosen.now placed.now searched.old }
    ensures ready { MatchOption result (IsStuck hops.now chosen.now placed.now)
        (λ v. IsReady hops.now chosen.now placed.now v) }
    ensures searched { AreSearched hops.now chosen.now placed.now searched.new }
{
    for v in 0..placed.len() {
        if is_ready(hops, chosen, placed, NodeId(v as u32), &mut searched[v]) {
            return Some(NodeId(v as u32));
        }
    }
    None
}

// Returns a node that is not placed. Returns None if there is none.
fn unplaced(placed: &[bool]) -> Option<NodeId>
    requires { length placed.now < 2 ^ 32 }
    ensures { MatchOption result ((v : ℕ) → v < length placed.now → Has placed.now v)
        (λ v. (v < length placed.now) × (Has placed.now v → ⊥)) }
{
    for (v, is_placed) in placed.iter().enumerate() {
        if !*is_placed {
            return Some(NodeId(v as u32));
        }
    }
    None
}

// Returns how many links the walk has up to and including the first one that leads to this node. Returns None if none does.
fn turn(hops: &[Hop], walk: &[LinkId], node: NodeId) -> Option<usize>
    requires { (i e : ℕ) → slice_get walk.now i ≡ Some e → e < length hops.now }
    ensures { MatchOption result ((count : ℕ) → Turns hops.now walk.now node count → ⊥)
        (λ count. Turns hops.now walk.now node count) }
{
    for (place, link) in walk.iter().enumerate() {
        let hop = &hops[link.index()];
        if hop.head == node {
            return Some(place + 1);
        }
    }
    None
}

// Returns the same for a walk with such a link.
fn turn_back(hops: &[Hop], walk: &[LinkId], node: NodeId) -> usize
    requires within { (i e : ℕ) → slice_get walk.now i ≡ Some e → e < length hops.now }
    requires turns { (count : ℕ) × Turns hops.now walk.now node count }
    ensures { Turns hops.now walk.now node result }
{
    match turn(hops, walk, node) {
        Some(count) => count,
        None => unreachable!(),
    }
}

// Returns a chosen link to this node from one that is not placed. There must be one.
fn entering_link(hops: &[Hop], chosen: &[bool], placed: &[bool], node: NodeId) -> LinkId
    requires ends { AreBelow (length placed.now) hops.now }
    requires count { length chosen.now ≡ length hops.now }
    requires fewer { length hops.now < 2 ^ 32 }
    requires some { (e : ℕ) × EntersFromUnplaced hops.now chosen.now placed.now e node }
    ensures { EntersFromUnplaced hops.now chosen.now placed.now result node }
{
    match entering_from(hops, chosen, placed, node, 0) {
        Some(link) => link,
        None => unreachable!(),
    }
}

// Returns a cycle along chosen links. A chosen link must enter each node that is not placed, from another such node. The walk
// goes back from the start until it comes to a node for the second time. Fails if an allocation fails.
fn cycle_back(
    alloc: Global,
    hops: &[Hop],
    chosen: &[bool],
    placed: &[bool],
    start: NodeId,
) -> Result<Vec<LinkId>, AllocError>
    requires ends { AreBelow (length placed.now) hops.now }
    requires count { length chosen.now ≡ length hops.now }
    requires fewer { length hops.now < 2 ^ 32 }
    requires stuck { IsStuck hops.now chosen.now placed.now }
    requires below { start < length placed.now }
    requires free { Has placed.now start → ⊥ }
    ensures { IfOk result (λ cycle. IsChosenCycle hops.now chosen.now cycle.items) }
{
    let mut visited = vec![in alloc; false; placed.len()]?;
    let mut walk = Vec::new(alloc);
    let mut node = start;
    while !visited[node.index()] {
        visited[node.index()] = true;
        let link = entering_link(hops, chosen, placed, node);
        walk.insert(0, link)?;
        let hop = &hops[link.index()];
        node = hop.tail;
    }
    walk.truncate(turn_back(hops, &walk, node));
    Ok(walk)
}

// An order of the nodes, or a cycle.
#[derive(Drop)]
enum OrderOrCycle {
    Order(Vec<NodeId>),
    Cycle(Vec<LinkId>),
}

// Returns an order of the nodes in which every chosen link leads to a later one, or a cycle along chosen links. Fails if an
// allocation fails.
fn order_or_cycle(
    alloc: Global,
    nodes: u32,
    hops: &[Hop],
    chosen: &[bool],
) -> Result<OrderOrCycle, AllocError>
    requires ends { AreBelow nodes hops.now }
    requires count { length chosen.now ≡ length hops.now }
    requires fewer { length hops.now < 2 ^ 32 }
    ensures { IfOk result (λ found. IsFound nodes hops.now chosen.now found) }
{
    let mut placed = vec![in alloc; false; nodes as usize]?;
    let mut searched = vec![in alloc; 0; nodes as usize]?;
    let mut order = Vec::new(alloc);
    while let Some(node) = next_ready(hops, chosen, &placed, &mut searched) {
        placed[node.index()] = true;
        order.push(node)?;
    }
    match unplaced(&placed) {
        None => Ok(OrderOrCycle::Order(order)),
        Some(start) => {
            let cycle = cycle_back(alloc, hops, chosen, &placed, start)?;
            Ok(OrderOrCycle::Cycle(cycle))
        }
    }
}

/// Returns all nodes, each once, in an order in which every chosen link leads to a later one. Returns None exactly if the chosen
/// links hold a cycle. There is one flag for each link. Fails if an allocation fails.
pub fn topological(
    alloc: Global,
    nodes: u32,
    hops: &[Hop],
    chosen: &[bool],
) -> Result<Option<Vec<NodeId>>, AllocError>
    requires ends { AreBelow nodes hops.now }
    requires count { length chosen.now ≡ length hops.now }
    requires fewer { length hops.now < 2 ^ 32 }
    ensures order { IfOk result
        (λ found. IfSome found (λ order. IsOrder nodes hops.now chosen.now order.items)) }
    ensures none { IfOk result
        (λ found. IsNone found ↔ ((cycle : List ℕ) × IsChosenCycle hops.now chosen.now cycle)) }
{
    match order_or_cycle(alloc, nodes, hops, chosen)? {
        OrderOrCycle::Order(order) => Ok(Some(order)),
        OrderOrCycle::Cycle(_) => Ok(None),
    }
}

// Returns for each link whether its transit time is 0. Fails if an allocation fails.
fn zero_links(alloc: Global, hops: &[Hop]) -> Result<Vec<bool>, AllocError>
    ensures { IfOk result (λ flags. flags.items ≡ map (λ hop. same_ℚ hop.transit 0ℚ) hops.now) }
{
    hops.iter()
        .map(|hop| hop.transit == Q::zero())
        .collect(alloc)
}

/// Returns a closed walk of at least one link, each of zero transit time. Returns None exactly if there is none. If no transit
/// time is negative, these are the closed walks that take no time. Fails if an allocation fails.
pub fn zero_cycle(
    alloc: Global,
    nodes: u32,
    hops: &[Hop],
) -> Result<Option<Vec<LinkId>>, AllocError>
    requires ends { AreBelow nodes hops.now }
    requires fewer { length hops.now < 2 ^ 32 }
    ensures cycle { IfOk result
        (λ found. IfSome found (λ cycle. IsZeroCycle hops.now cycle.items)) }
    ensures none { IfOk result
        (λ found. IsNone found ↔ ((cycle : List ℕ) → IsZeroCycle hops.now cycle → ⊥)) }
{
    let chosen = zero_links(alloc, hops)?;
    match order_or_cycle(alloc, nodes, hops, &chosen)? {
        OrderOrCycle::Order(_) => Ok(None),
        OrderOrCycle::Cycle(cycle) => Ok(Some(cycle)),
    }
}
