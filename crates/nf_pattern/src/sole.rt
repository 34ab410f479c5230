// Links that alone can enter their head. No listed pattern has one of them Zero.
ghost use Rattle.std.specs.Prelude.{◌≡◌, ◌^◌, ◌<◌, List, Bool, true, length, IfOk};
ghost use Rattle.nf_graph.specs.Graph.{AreBelow};
ghost use Rattle.nf_pattern.specs.Entered.{AreEndsBefore, AreEnds};
ghost use Rattle.nf_pattern.specs.Sole.{EntersAlone, AllEnterAlone};

use crate::entered::{ends, is_end, is_lost_at, note_end};
use nf_graph::{Hop, LinkId, NodeId};
use nf_model::State;
use std::alloc::{AllocError, Global};

// Returns true only if the link has a state in the base and alone can enter its head, which is not the source. `before` has for each node
// the number after the last link before this one that can enter it, and `all` that after the last of all links, or 0.
fn is_sole(
    hops: &[Hop],
    base: &[Option<State>],
    source: NodeId,
    link: usize,
    before: &[usize],
    all: &[usize],
) -> bool
    requires link { link < length hops.now }
    requires base { length base.now ≡ length hops.now }
    requires fewer { length hops.now < 2 ^ 32 }
    requires nodes { length before.now < 2 ^ 32 }
    requires below_before { AreBelow (length before.now) hops.now }
    requires below_all { AreBelow (length all.now) hops.now }
    ensures { result ≡ true → (resetting : List Bool)
        → AreEndsBefore hops.now resetting base.now link before.now
        → AreEnds hops.now resetting base.now all.now
        → EntersAlone source hops.now resetting base.now link }
{
    if base[link].is_none() {
        return false;
    }
    let hop = &hops[link];
    let head = hop.head;
    if !is_lost_at(before, source, head.index()) {
        return false;
    }
    is_end(all, head, LinkId(link as u32))
}

// Returns a flag for each link, which is set only if the link has a state in the base and alone can enter its head, which is not the
// source. Fails if an allocation fails.
pub(crate) fn sole_links(
    alloc: Global,
    nodes: u32,
    source: NodeId,
    hops: &[Hop],
    base: &[Option<State>],
    resetting: &[bool],
) -> Result<Vec<bool>, AllocError>
    requires base { length base.now ≡ length hops.now }
    requires resetting { length resetting.now ≡ length hops.now }
    requires below { AreBelow nodes hops.now }
    requires fewer { length hops.now < 2 ^ 32 }
    ensures count { IfOk result (λ sole. length sole.items ≡ length hops.now) }
    ensures sole { IfOk result
        (λ sole. AllEnterAlone source hops.now resetting.now base.now sole.items) }
{
    let all = ends(alloc, nodes, hops, base, resetting)?;
    let mut before = vec![in alloc; 0; nodes as usize]?;
    let mut sole = Vec::with_capacity(alloc, hops.len())?;
    for e in 0..hops.len() {
        let flag = is_sole(hops, base, source, e, &before, &all);
        sole.push(flag)?;
        note_end(hops, base, resetting, e, &mut before);
    }
    Ok(sole)
}
