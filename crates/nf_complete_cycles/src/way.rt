// A path between two nodes along chosen links. A tree of steps grows from one node until no chosen link leaves the tree. The newest step
// comes first.
ghost use Rattle.std.specs.Prelude.{◌≡◌, ◌<◌, ◌^◌, ◌==◌, length, IfOk, MatchOption, true, Bool};
ghost use Rattle.std.specs.List.{AllByRecursion};
ghost use Rattle.nf_graph.specs.Graph.{AreBelow};
ghost use Rattle.nf_complete_cycles.specs.Trees.{Crosses, StepsOut, NoneStepsOut, begin_at, step_end, way_back, IsWay, AreApart};

use crate::step::Step;
use nf_graph::{Hop, LinkId, NodeId};
use std::alloc::{AllocError, Global};

// Returns the direction in which the hop leads from a node with a flag to a node without one, if there is such a direction.
fn crossing(hop: &Hop, flags: &[bool]) -> Option<bool>
    requires tail { hop.now.tail < length flags.now }
    requires head { hop.now.head < length flags.now }
    ensures { MatchOption result ((forward : Bool) → Crosses flags.now hop.now forward → ⊥)
        (λ forward. Crosses flags.now hop.now forward) }
{
    let tail = hop.tail;
    let head = hop.head;
    let from_tail = flags[tail.index()];
    let from_head = flags[head.index()];
    if from_tail && !from_head {
        Some(true)
    } else if from_head && !from_tail {
        Some(false)
    } else {
        None
    }
}

// Returns the first chosen link that leads from a node with a flag to a node without one, with its direction.
fn next_step(hops: &[Hop], chosen: &[bool], flags: &[bool]) -> Option<Step>
    requires ends { AreBelow (length flags.now) hops.now }
    requires count { length chosen.now ≡ length hops.now }
    requires fewer { length hops.now < 2 ^ 32 }
    ensures { MatchOption result (NoneStepsOut hops.now chosen.now flags.now)
        (λ step. StepsOut hops.now chosen.now flags.now step) }
{
    for (e, hop) in hops.iter().enumerate() {
        if chosen[e] {
            if let Some(forward) = crossing(hop, flags) {
                return Some(Step {
                    link: LinkId(e as u32),
                    forward,
                });
            }
        }
    }
    None
}

// Returns the node at which a step ends.
fn end_of(hops: &[Hop], step: Step) -> NodeId
    requires { step.0 < length hops.now }
    ensures { result ≡ step_end hops.now step }
{
    let hop = &hops[step.link.index()];
    if step.forward { hop.head } else { hop.tail }
}

// Returns the node at which a step starts.
fn begin_of(hops: &[Hop], step: Step) -> NodeId
    requires { step.0 < length hops.now }
    ensures { result ≡ begin_at hops.now step }
{
    let hop = &hops[step.link.index()];
    if step.forward { hop.tail } else { hop.head }
}

// Returns the path from a node back to the root of a tree of steps. The newest step comes first in the tree.
fn trace(alloc: Global, hops: &[Hop], tree: &[Step], to: NodeId) -> Result<Vec<Step>, AllocError>
    requires { AllByRecursion (λ step. step.0 < length hops.now) tree.now }
    ensures { IfOk result (λ steps. steps.items ≡ way_back hops.now tree.now to) }
{
    let mut node = to;
    let mut back = Vec::new(alloc);
    for step in tree {
        let step: Step = *step;
        if end_of(hops, step) == node {
            back.push(Step {
                link: step.link,
                forward: !step.forward,
            })?;
            node = begin_of(hops, step);
        }
    }
    Ok(back)
}

/// Returns a path from `to` back to `from` along chosen links, each forward or backward and at most once. Returns `None` if some set of
/// nodes contains `from` but not `to`, and no chosen link crosses its boundary.
pub(crate) fn way(
    alloc: Global,
    nodes: u32,
    hops: &[Hop],
    chosen: &[bool],
    from: NodeId,
    to: NodeId,
) -> Result<Option<Vec<Step>>, AllocError>
    requires ends { AreBelow nodes hops.now }
    requires count { length chosen.now ≡ length hops.now }
    requires fewer { length hops.now < 2 ^ 32 }
    requires from { from < nodes }
    requires to { to < nodes }
    ensures { IfOk result
        (λ found. MatchOption found (AreApart hops.now chosen.now from to)
        (λ steps. IsWay hops.now chosen.now from to steps.items)) }
{
    let mut flags = vec![in alloc; false; nodes as usize]?;
    flags[from.index()] = true;
    let mut tree: Vec<Step> = Vec::new(alloc);
    while let Some(step) = next_step(hops, chosen, &flags) {
        let node = end_of(hops, step);
        flags[node.index()] = true;
        tree.insert(0, step)?;
    }
    if !flags[to.index()] {
        return Ok(None);
    }
    let back = trace(alloc, hops, &tree, to)?;
    Ok(Some(back))
}
