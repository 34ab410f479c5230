// Nodes entered by a Tight, Full or resetting link.
ghost use Rattle.std.specs.Prelude.{◌≡◌, ◌≢◌, ◌^◌, ◌<◌, ℕ, suc, length, List, Bool, Some, None, slice_get, MatchBool, IfOk};
ghost use Rattle.nf_model.specs.Walk.{Hop as SeenHop, IsHop};
ghost use Rattle.nf_graph.specs.Graph.{AreBelow};
ghost use Rattle.nf_pattern.specs.Entered.{MayCarry, CanCarry, LeadsTo, EnteredBefore, IsLastInto, AreLastInto, AreChained, AreEndsBefore, AreEnds, IsLost};

use nf_graph::{Hop, LinkId, NodeId};
use nf_model::State;
use std::alloc::{AllocError, Global};

// Returns whether the link is resetting, Tight or Full.
pub(crate) fn may_carry(states: &[Option<State>], resetting: &[bool], link: LinkId) -> bool
    requires states { link < length states.now }
    requires resetting { link < length resetting.now }
    ensures { MatchBool result (MayCarry resetting.now states.now link)
        (MayCarry resetting.now states.now link → ⊥) }
{
    if resetting[link.index()] {
        return true;
    }
    let state = states[link.index()];
    match state {
        Some(State::Tight) => true,
        Some(State::Full) => true,
        _ => false,
    }
}

// Returns whether `link` is the last link that can enter the node.
pub(crate) fn is_end(ends: &[usize], node: NodeId, link: LinkId) -> bool
    requires { node < length ends.now }
    ensures { MatchBool result (slice_get ends.now node ≡ Some (suc link))
        (slice_get ends.now node ≡ Some (suc link) → ⊥) }
{
    ends[node.index()] == link.index() + 1
}

// Returns whether a resetting, Tight or Full link before `link` enters the head of `link`. Follows the chain of links into that head
// backward from `link`.
pub(crate) fn is_entered_before(
    states: &[Option<State>],
    resetting: &[bool],
    link: LinkId,
    chain: &[Option<LinkId>],
) -> bool
    requires states { length states.now ≡ length chain.now }
    requires resetting { length resetting.now ≡ length chain.now }
    requires link { link < length chain.now }
    requires chained { (hops : List SeenHop) × (head : ℕ) × AreChained hops chain.now
        × LeadsTo hops link head }
    ensures { (hops : List SeenHop) (head : ℕ) → AreChained hops chain.now → LeadsTo hops link head
        → MatchBool result (EnteredBefore hops resetting.now states.now link head)
        (EnteredBefore hops resetting.now states.now link head → ⊥) }
{
    let mut at = chain[link.index()];
    while let Some(before) = at {
        if may_carry(states, resetting, before) {
            return true;
        }
        at = chain[before.index()];
    }
    false
}

// Returns the last link before `link` with the same head, or `None`. Sets `last` at that head to `link`.
fn chain_link(hops: &[Hop], link: usize, last: &mut [Option<LinkId>]) -> Option<LinkId>
    requires link { link < length hops.now }
    requires fewer { length hops.now < 2 ^ 32 }
    requires below { AreBelow (length last.old) hops.now }
    requires last { AreLastInto hops.now link last.old }
    ensures last { AreLastInto hops.now (suc link) last.new }
    ensures before { (hop : SeenHop) → IsHop hops.now link hop
        → IsLastInto hops.now link hop.head result }
{
    let hop = &hops[link];
    let head = hop.head;
    let before = last[head.index()];
    last[head.index()] = Some(LinkId(link as u32));
    before
}

/// Returns for each link the last link before it with the same head, or `None`. Fails if an allocation fails.
pub(crate) fn chain(
    alloc: Global,
    nodes: u32,
    hops: &[Hop],
) -> Result<Vec<Option<LinkId>>, AllocError>
    requires fewer { length hops.now < 2 ^ 32 }
    requires below { AreBelow nodes hops.now }
    ensures count { IfOk result (λ chain. length chain.items ≡ length hops.now) }
    ensures chain { IfOk result (λ chain. AreChained hops.now chain.items) }
{
    let mut last = vec![in alloc; None; nodes as usize]?;
    let mut chain = Vec::with_capacity(alloc, hops.len())?;
    for e in 0..hops.len() {
        let before = chain_link(hops, e, &mut last);
        chain.push(before)?;
    }
    Ok(chain)
}

// Returns whether the link is resetting or has a state in the base.
fn can_carry(base: &[Option<State>], resetting: &[bool], link: usize) -> bool
    requires base { link < length base.now }
    requires resetting { link < length resetting.now }
    ensures { MatchBool result (CanCarry resetting.now base.now link)
        (CanCarry resetting.now base.now link → ⊥) }
{
    resetting[link] || base[link].is_some()
}

// Sets `ends` at the link's head to `link + 1` if the link is resetting or has a state in the base.
pub(crate) fn note_end(
    hops: &[Hop],
    base: &[Option<State>],
    resetting: &[bool],
    link: usize,
    ends: &mut [usize],
)
    requires link { link < length hops.now }
    requires base { length base.now ≡ length hops.now }
    requires resetting { length resetting.now ≡ length hops.now }
    requires below { AreBelow (length ends.old) hops.now }
    requires ends { AreEndsBefore hops.now resetting.now base.now link ends.old }
    ensures { AreEndsBefore hops.now resetting.now base.now (suc link) ends.new }
{
    if can_carry(base, resetting, link) {
        let hop = &hops[link];
        let head = hop.head;
        ends[head.index()] = link + 1;
    }
}

// Returns for each node the number after the last link that can enter it, or 0 if no link can. Fails if an allocation fails.
pub(crate) fn ends(
    alloc: Global,
    nodes: u32,
    hops: &[Hop],
    base: &[Option<State>],
    resetting: &[bool],
) -> Result<Vec<usize>, AllocError>
    requires base { length base.now ≡ length hops.now }
    requires resetting { length resetting.now ≡ length hops.now }
    requires below { AreBelow nodes hops.now }
    ensures count { IfOk result (λ ends. length ends.items ≡ nodes) }
    ensures ends { IfOk result (λ ends. AreEnds hops.now resetting.now base.now ends.items) }
{
    let mut ends = vec![in alloc; 0; nodes as usize]?;
    for e in 0..hops.len() {
        note_end(hops, base, resetting, e, &mut ends);
    }
    Ok(ends)
}

// Returns whether the node is not the source and no link can enter it.
pub(crate) fn is_lost_at(ends: &[usize], source: NodeId, node: usize) -> bool
    requires node { node < length ends.now }
    requires fewer { length ends.now < 2 ^ 32 }
    ensures { MatchBool result ((node ≢ source) × (slice_get ends.now node ≡ Some 0))
        (node ≢ source → slice_get ends.now node ≡ Some 0 → ⊥) }
{
    NodeId(node as u32) != source && ends[node] == 0
}

// Returns whether no link can enter some node other than the source.
pub(crate) fn is_lost(ends: &[usize], source: NodeId) -> bool
    requires { length ends.now < 2 ^ 32 }
    ensures { IsLost source ends.now result }
{
    for v in 0..ends.len() {
        if is_lost_at(ends, source, v) {
            return true;
        }
    }
    false
}
