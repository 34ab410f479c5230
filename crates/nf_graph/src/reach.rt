// The nodes that walks reach.
ghost use Rattle.std.specs.Prelude.{◌≡◌, ◌<◌, length, IfOk, MatchBool, MatchOption};
ghost use Rattle.nf_model.specs.Entries.{Has};
ghost use Rattle.nf_graph.specs.Graph.{AreBelow, AreReached, Leaves, IsClosed};

use crate::ids::{Hop, NodeId};
use std::alloc::{AllocError, Global};

// Returns whether the hop leads from a node with a set flag to one without.
fn leads_out(hop: &Hop, flags: &[bool]) -> bool
    requires tail { hop.now.tail < length flags.now }
    requires head { hop.now.head < length flags.now }
    ensures { MatchBool result (Has flags.now hop.now.tail × (Has flags.now hop.now.head → ⊥))
        (Has flags.now hop.now.tail → Has flags.now hop.now.head) }
{
    let tail = hop.tail;
    let head = hop.head;
    flags[tail.index()] && !flags[head.index()]
}

// Returns a node without a set flag to which a hop leads from one with a set flag. Returns None if there is none.
fn next_reached(hops: &[Hop], flags: &[bool]) -> Option<NodeId>
    requires { AreBelow (length flags.now) hops.now }
    ensures { MatchOption result (IsClosed hops.now flags.now) (λ v. Leaves hops.now flags.now v) }
{
    for hop in hops {
        if leads_out(hop, flags) {
            return Some(hop.head);
        }
    }
    None
}

/// Returns for each node whether a walk leads from `from` to it. The empty walk leads to `from` itself. Fails if an allocation fails.
pub fn reached(
    alloc: Global,
    nodes: u32,
    hops: &[Hop],
    from: NodeId,
) -> Result<Vec<bool>, AllocError>
    requires ends { AreBelow nodes hops.now }
    requires from { from < nodes }
    ensures { IfOk result (λ flags. AreReached nodes hops.now from flags.items) }
{
    let mut flags = vec![in alloc; false; nodes as usize]?;
    flags[from.index()] = true;
    while let Some(node) = next_reached(hops, &flags) {
        flags[node.index()] = true;
    }
    Ok(flags)
}
