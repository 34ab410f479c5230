// Links that alone can enter their head.
ghost use Rattle.std.specs.Prelude.{◌≡◌, ◌^◌, ◌<◌, false, length, IfOk, IsTrue};
ghost use Rattle.nf_model.specs.Entries.{Has};
ghost use Rattle.nf_thin_laws.specs.Ways.{IsSole, AreSole};

use nf_graph::{Hop, LinkId, LinkSets, NodeId};
use nf_net::MOST_NODES;
use std::alloc::{AllocError, Global};

// Returns whether `other` is an active link to this node other than `link`.
fn enters_too(hop: &Hop, sets: &LinkSets, other: LinkId, node: NodeId, link: LinkId) -> bool
    requires { other < length sets.now.active }
    ensures { result ≡ false → hop.now.head ≡ node → Has sets.now.active other → other ≡ link }
{
    hop.head == node && other != link && sets.active(other)
}

// Returns true only if no other active link has the same head, and the head is not the source.
fn is_sole(hops: &[Hop], sets: &LinkSets, source: NodeId, link: LinkId) -> bool
    requires link { link < length hops.now }
    requires sets { length sets.now.active ≡ length hops.now }
    requires fewer { length hops.now < 2 ^ 32 }
    ensures { IsTrue result → IsSole source hops.now sets.now link }
{
    let here = &hops[link.index()];
    let node = here.head;
    if node == source {
        return false;
    }
    for (e, hop) in hops.iter().enumerate() {
        if enters_too(hop, sets, LinkId(e as u32), node, link) {
            return false;
        }
    }
    true
}

// Returns how many active links lead to each node. Node numbers are less than `MOST_NODES`. No contract depends on the counts. Fails if an
// allocation fails.
fn entering_counts(alloc: Global, hops: &[Hop], sets: &LinkSets) -> Result<Vec<u32>, AllocError>
    requires sets { length sets.now.active ≡ length hops.now }
    requires fewer { length hops.now < 2 ^ 32 }
{
    let mut counts = vec![in alloc; 0u32; MOST_NODES]?;
    for (e, hop) in hops.iter().enumerate() {
        let head = hop.head.index();
        if sets.active(LinkId(e as u32)) && head < counts.len() {
            counts[head] = counts[head].saturating_add(1);
        }
    }
    Ok(counts)
}

// Returns whether an active link is the only one to its head by these counts. No contract depends on the answer.
fn seems_sole(counts: &[u32], sets: &LinkSets, head: NodeId, link: LinkId) -> bool
    requires { link < length sets.now.active }
{
    sets.active(link) && head.index() < counts.len() && counts[head.index()] == 1
}

// Returns the flag of a link. Tests the other links only if the counts allow the flag.
fn sole_flag(hops: &[Hop], sets: &LinkSets, source: NodeId, counts: &[u32], link: LinkId) -> bool
    requires link { link < length hops.now }
    requires sets { length sets.now.active ≡ length hops.now }
    requires fewer { length hops.now < 2 ^ 32 }
    ensures { IsTrue result → IsSole source hops.now sets.now link }
{
    let here = &hops[link.index()];
    if !seems_sole(counts, sets, here.head, link) {
        return false;
    }
    is_sole(hops, sets, source, link)
}

/// Returns flags of links that alone can enter their head, which is not the source. Some such links may not be flagged. Fails if an
/// allocation fails.
pub fn sole_flags(
    alloc: Global,
    hops: &[Hop],
    sets: &LinkSets,
    source: NodeId,
) -> Result<Vec<bool>, AllocError>
    requires sets { length sets.now.active ≡ length hops.now }
    requires fewer { length hops.now < 2 ^ 32 }
    ensures count { IfOk result (λ flags. length flags.items ≡ length hops.now) }
    ensures sole { IfOk result (λ flags. AreSole source hops.now sets.now flags.items) }
{
    let counts = entering_counts(alloc, hops, sets)?;
    let mut flags = Vec::with_capacity(alloc, hops.len())?;
    for e in 0..hops.len() {
        let flag = sole_flag(hops, sets, source, &counts, LinkId(e as u32));
        flags.push(flag)?;
    }
    Ok(flags)
}
