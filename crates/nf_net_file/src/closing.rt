// What a network file as a whole says: the rules N17 to N22.
ghost use Rattle.std.specs.Prelude.{◌≡◌, ◌<◌, ◌≤◌, true, not, is_some, length, unwrap_or, [], IfOk, MatchOption, MatchBool};
ghost use Rattle.std.specs.List.{list_any};
ghost use Rattle.nf_model.specs.Network.{hop_of};
ghost use Rattle.nf_net_def.specs.Names.{place_of};
ghost use Rattle.nf_net_def.specs.Named.{numbered, hops_among};
ghost use Rattle.nf_net_def.specs.NetClosing.{draft_hops, LeavesUnreached, HasZeroCycle, HasPassingSum};
ghost use Rattle.nf_net_file.specs.Drafts.{seen_draft};
ghost use Rattle.nf_net_file.specs.Contents.{IsRead};
ghost use Rattle.nf_net_file.specs.Closing.{HasEnds, BreaksNone, BreaksFirstAtEnd, flag_at, some_unreached, AreFlags, HasFraction};
ghost use Rattle.nf_net_def.specs.Limits.{most_nodes};

use crate::draft::Draft;
use crate::link::NamedLink;
use crate::name::Name;
use crate::names::Names;
use nf_graph::{DistanceFault, Hop, NodeId, distances, reached, zero_cycle};
use nf_net_def::NetRule;
use std::alloc::{AllocError, Global};

// Returns a link without its capacity, by the places of its ends among these names.
fn hop_between(nodes: &Names, link: &NamedLink) -> Hop
    requires { length nodes.now ≤ most_nodes }
    ensures { result ≡ hop_of (numbered nodes.now link.now) }
{
    let tail = nodes.place_or_len(&link.tail);
    let head = nodes.place_or_len(&link.head);
    Hop {
        tail: NodeId(tail as u32),
        head: NodeId(head as u32),
        transit: link.transit,
    }
}

/// Returns the links without capacities, by the places of their ends among these names. Fails if an allocation fails.
pub fn hops_of(alloc: Global, nodes: &Names, links: &[NamedLink]) -> Result<Vec<Hop>, AllocError>
    requires { length nodes.now ≤ most_nodes }
    ensures { IfOk result (λ hops. hops.items ≡ hops_among nodes.now links.now) }
{
    let mut hops = Vec::new(alloc);
    for link in links {
        hops.push(hop_between(nodes, link))?;
    }
    Ok(hops)
}

/// Returns the place of a name, which must be given, or the number of names if it is not among them.
pub fn place_in(nodes: &Names, name: &Option<Name>) -> NodeId
    requires given { is_some name.now ≡ true }
    requires few { length nodes.now ≤ most_nodes }
    ensures { result ≡ place_of nodes.now (unwrap_or name.now []) }
{
    match name {
        Some(name) => NodeId(nodes.place_or_len(name) as u32),
        None => unreachable!(),
    }
}

/// Returns the first of N17 to N19 that the file breaks, if any.
#[tactic(auto, using(crate::proofs::FirstRule::first_ended, crate::proofs::FirstRule::first_named, crate::proofs::FirstRule::first_apart))]
pub fn names_rule(draft: &Draft) -> Option<NetRule>
    ensures { MatchOption result (HasEnds (seen_draft draft.now))
        (λ rule. BreaksFirstAtEnd (seen_draft draft.now) rule) }
{
    if !draft.ended {
        return Some(NetRule::N17);
    }
    let Some(source) = &draft.source else {
        return Some(NetRule::N18);
    };
    let Some(sink) = &draft.sink else {
        return Some(NetRule::N18);
    };
    if source == sink {
        return Some(NetRule::N19);
    }
    None
}

fn some_unset(flags: &[bool]) -> bool
    ensures { result ≡ list_any not flags.now }
{
    flags.iter().any(|flag| !*flag)
}

#[tactic(auto, using(crate::proofs::Marks::flag_read))]
fn is_set(flags: &[bool], node: NodeId) -> bool
    requires { node < length flags.now }
    ensures { result ≡ flag_at flags.now node }
{
    flags[node.index()]
}

#[tactic(auto, using(crate::proofs::Marks::unreached_in_one, crate::proofs::Marks::unreached_in_two))]
fn leaves_unreached(version: u32, flags: &[bool], sink: NodeId) -> bool
    requires { sink < length flags.now }
    ensures { result ≡ some_unreached version flags.now sink }
{
    if version == 1 {
        some_unset(flags)
    } else {
        !is_set(flags, sink)
    }
}

/// Returns true if a fault of least transit sums is a passing sum. Fails if the fault is an allocation failure.
pub fn is_passing(fault: DistanceFault) -> Result<bool, AllocError>
    ensures { IfOk result (λ passing. (passing ≡ true) × HasFraction fault) }
{
    match fault {
        DistanceFault::Passed {
            link: _,
            left,
            right: _,
        } => {
            left.recall();
            Ok(true)
        }
        DistanceFault::Memory => Err(AllocError),
    }
}

// Returns whether some least transit sum and the transit of a link after it have a sum that passes. Fails if an allocation fails.
fn has_passing_sum(alloc: Global, draft: &Draft, hops: &[Hop]) -> Result<bool, AllocError>
    requires read { IsRead (seen_draft draft.now) }
    requires ends { HasEnds (seen_draft draft.now) }
    requires hops { hops.now ≡ draft_hops (seen_draft draft.now) }
    ensures { IfOk result (λ passing. MatchBool passing (HasPassingSum (seen_draft draft.now))
        (HasPassingSum (seen_draft draft.now) → ⊥)) }
{
    let source = place_in(&draft.nodes, &draft.source);
    let fault = match distances(alloc, draft.nodes.len() as u32, hops, source) {
        Ok(_) => return Ok(false),
        Err(fault) => fault,
    };
    is_passing(fault)
}

// Returns whether some links of zero transit form a cycle. Fails if an allocation fails.
fn has_zero_cycle(alloc: Global, draft: &Draft, hops: &[Hop]) -> Result<bool, AllocError>
    requires read { IsRead (seen_draft draft.now) }
    requires hops { hops.now ≡ draft_hops (seen_draft draft.now) }
    ensures { IfOk result (λ cycle. MatchBool cycle (HasZeroCycle (seen_draft draft.now))
        (HasZeroCycle (seen_draft draft.now) → ⊥)) }
{
    let cycle = zero_cycle(alloc, draft.nodes.len() as u32, hops)?;
    let there = cycle.is_some();
    Ok(there)
}

// Returns whether no walk from the source reaches some node, or from version 2 on the sink.
fn leaves_nodes(draft: &Draft, flags: &[bool]) -> bool
    requires read { IsRead (seen_draft draft.now) }
    requires ends { HasEnds (seen_draft draft.now) }
    requires flags { AreFlags (seen_draft draft.now) flags.now }
    ensures { MatchBool result (LeavesUnreached (seen_draft draft.now))
        (LeavesUnreached (seen_draft draft.now) → ⊥) }
{
    let sink = place_in(&draft.nodes, &draft.sink);
    leaves_unreached(draft.version, flags, sink)
}

/// Returns a flag for each node: whether a walk from the source reaches it. Fails if an allocation fails.
pub fn flags_of(alloc: Global, draft: &Draft, hops: &[Hop]) -> Result<Vec<bool>, AllocError>
    requires read { IsRead (seen_draft draft.now) }
    requires ends { HasEnds (seen_draft draft.now) }
    requires hops { hops.now ≡ draft_hops (seen_draft draft.now) }
    ensures { IfOk result (λ flags. AreFlags (seen_draft draft.now) flags.items) }
{
    let source = place_in(&draft.nodes, &draft.source);
    reached(alloc, draft.nodes.len() as u32, hops, source)
}

/// Returns the first of N20 to N22 that the file breaks, if any. N17 to N19 must hold. Fails if an allocation fails.
pub fn walk_rule(
    alloc: Global,
    draft: &Draft,
    hops: &[Hop],
    flags: &[bool],
) -> Result<Option<NetRule>, AllocError>
    requires read { IsRead (seen_draft draft.now) }
    requires ends { HasEnds (seen_draft draft.now) }
    requires hops { hops.now ≡ draft_hops (seen_draft draft.now) }
    requires flags { AreFlags (seen_draft draft.now) flags.now }
    ensures { IfOk result (λ rule. MatchOption rule (BreaksNone (seen_draft draft.now))
        (λ rule. BreaksFirstAtEnd (seen_draft draft.now) rule)) }
{
    if leaves_nodes(draft, flags) {
        return Ok(Some(NetRule::N20));
    }
    let cycle = has_zero_cycle(alloc, draft, hops)?;
    if cycle {
        return Ok(Some(NetRule::N21));
    }
    let passing = has_passing_sum(alloc, draft, hops)?;
    if passing {
        return Ok(Some(NetRule::N22));
    }
    Ok(None)
}
