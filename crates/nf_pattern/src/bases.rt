// The base pattern, with which the search of a phase begins.
ghost use Rattle.std.specs.Prelude.{◌≡◌, ◌^◌, ◌<◌, if◌then◌else◌, length, slice_set, true, IfOk, MatchBool};
ghost use Rattle.nf_model.specs.Entries.{Has};
ghost use Rattle.nf_model.specs.Walk.{Hop as SeenHop, IsHop};
ghost use Rattle.nf_model.specs.Pattern.{IsBase};
ghost use Rattle.nf_graph.specs.Graph.{AreBelow};
ghost use Rattle.nf_pattern.specs.Base.{AreBarred, IsBaseState};

use crate::pattern::Pattern;
use nf_graph::{Hop, LinkId, LinkSets};
use nf_model::State;
use std::alloc::{AllocError, Global};

// Sets the flag of the link's head if the link is chosen.
fn mark_head(hops: &[Hop], link: LinkId, chosen: bool, flags: &mut [bool])
    requires link { link < length hops.now }
    requires ends { AreBelow (length flags.old) hops.now }
    ensures { (hop : SeenHop) → IsHop hops.now link hop
        → flags.new ≡ (if chosen then slice_set flags.old hop.head true else flags.old) }
{
    if chosen {
        let hop = &hops[link.index()];
        let node = hop.head;
        flags[node.index()] = true;
    }
}

// Returns whether the flag of the link's head is set.
fn has_marked_head(hops: &[Hop], link: LinkId, flags: &[bool]) -> bool
    requires link { link < length hops.now }
    requires ends { AreBelow (length flags.now) hops.now }
    ensures { (hop : SeenHop) → IsHop hops.now link hop
        → MatchBool result (Has flags.now hop.head) (Has flags.now hop.head → ⊥) }
{
    let hop = &hops[link.index()];
    let node = hop.head;
    flags[node.index()]
}

// Returns a flag for each node, which is set exactly if a resetting link enters the node. Fails if an allocation fails.
fn nodes_reset(
    alloc: Global,
    nodes: u32,
    hops: &[Hop],
    sets: &LinkSets,
) -> Result<Vec<bool>, AllocError>
    requires ends { AreBelow nodes hops.now }
    requires sets { length sets.now.active ≡ length hops.now }
    requires fewer { length hops.now < 2 ^ 32 }
    ensures { IfOk result (λ flags. AreBarred nodes hops.now sets.now 0 flags.items) }
{
    let mut flags = vec![in alloc; false; nodes as usize]?;
    for e in 0..hops.len() {
        let link = LinkId(e as u32);
        mark_head(hops, link, sets.resetting(link), &mut flags);
    }
    Ok(flags)
}

// Returns the state of a link in the base pattern. `flags` has the nodes that a resetting link, or an active one before this link, enters.
fn base_state(
    hops: &[Hop],
    sets: &LinkSets,
    last: &Pattern,
    flags: &[bool],
    link: LinkId,
) -> Option<State>
    requires link { link < length hops.now }
    requires sets { length sets.now.active ≡ length hops.now }
    requires last { length last.now ≡ length hops.now }
    requires ends { AreBelow (length flags.now) hops.now }
    requires flags { AreBarred (length flags.now) hops.now sets.now link flags.now }
    ensures { IsBaseState hops.now sets.now last.now link result }
{
    if !sets.active(link) || sets.resetting(link) {
        return None;
    }
    match last.state(link) {
        Some(state) => Some(state),
        None if has_marked_head(hops, link, flags) => Some(State::Zero),
        None => Some(State::Tight),
    }
}

/// Returns the base pattern of a phase, from the pattern of the last phase. Exactly the active links that are not resetting have a state. A
/// link with a state in the last pattern keeps it. Every other such link is Tight if it is the first active link, in link order, into a
/// node that no resetting link enters. Otherwise it is Zero. `nodes` is the number of nodes, and the ends of all links are below it. Fails
/// if an allocation fails.
pub fn base(
    alloc: Global,
    nodes: u32,
    hops: &[Hop],
    sets: &LinkSets,
    last: &Pattern,
) -> Result<Pattern, AllocError>
    requires ends { AreBelow nodes hops.now }
    requires sets { length sets.now.active ≡ length hops.now }
    requires last { length last.now ≡ length hops.now }
    requires fewer { length hops.now < 2 ^ 32 }
    ensures { IfOk result (λ base. IsBase hops.now sets.now last.now base) }
{
    let mut flags = nodes_reset(alloc, nodes, hops, sets)?;
    let mut states = Vec::new(alloc);
    for e in 0..hops.len() {
        let link = LinkId(e as u32);
        let state = base_state(hops, sets, last, &flags, link);
        states.push(state)?;
        mark_head(hops, link, sets.active(link), &mut flags);
    }
    Ok(Pattern::of(states))
}
