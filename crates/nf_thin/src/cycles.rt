// A test for cycles of active links. If there are none, all thin flows have the same slopes.
ghost use Rattle.std.specs.Prelude.{◌≡◌, length, IsTrue, IfOk};
ghost use Rattle.nf_thin_laws.specs.ActiveLinks.{HoldNoCycle};

use nf_graph::{LinkId, LinkSets, topological};
use nf_net::Network;
use std::alloc::{AllocError, Global};

// Returns for each link whether it is active. Fails if an allocation fails.
fn active_flags(alloc: Global, net: &Network, sets: &LinkSets) -> Result<Vec<bool>, AllocError>
    requires { length sets.now.active ≡ length net.now.net.links }
    ensures { IfOk result (λ flags. flags.items ≡ sets.now.active) }
{
    let mut flags = Vec::new(alloc);
    for e in 0..net.link_count() {
        flags.push(sets.active(LinkId(e)))?;
    }
    Ok(flags)
}

/// Returns whether the active links are known to hold no cycle. The answer false decides nothing. Fails if an allocation fails.
pub(crate) fn hold_no_cycle(
    alloc: Global,
    net: &Network,
    sets: &LinkSets,
) -> Result<bool, AllocError>
    requires { length sets.now.active ≡ length net.now.net.links }
    ensures { IfOk result (λ none. IsTrue none → HoldNoCycle net.now.net sets.now) }
{
    let active = active_flags(alloc, net, sets)?;
    match topological(alloc, net.node_count(), net.hops(), &active)? {
        Some(_) => Ok(true),
        None => Ok(false),
    }
}
