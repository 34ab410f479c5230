// Jointly acyclic Tight links of a base.
ghost use Rattle.std.specs.Prelude.{◌≡◌, ◌<◌, ◌^◌, length, IfOk};
ghost use Rattle.nf_graph.specs.Graph.{AreBelow};
ghost use Rattle.nf_model.specs.Pattern.{Pattern};
ghost use Rattle.nf_pattern.specs.Firm.{AreCalm};

use crate::firm::FirmLinks;
use crate::walking::{TightLinks, is_tight};
use nf_graph::{Hop, LinkId};
use nf_model::State;
use std::alloc::{AllocError, Global};

/// Returns the Tight links of a base before the first one that closes a cycle. They are jointly acyclic. Fails if an allocation fails.
pub(crate) fn firm_links(
    alloc: Global,
    nodes: u32,
    hops: &[Hop],
    base: &[Option<State>],
) -> Result<FirmLinks, AllocError>
    requires below { AreBelow nodes hops.now }
    requires fewer { length hops.now < 2 ^ 32 }
    requires base { length base.now ≡ length hops.now }
    ensures { IfOk result (λ firm. (p : Pattern) → AreCalm hops.now p 0 firm) }
{
    let mut firm = FirmLinks::none(alloc, hops)?;
    let mut tight = TightLinks::none(alloc, nodes, hops)?;
    for e in 0..hops.len() {
        let link = LinkId(e as u32);
        if !tight.enter_by_walk(hops, base, link) {
            return Ok(firm);
        }
        firm.mark(link, is_tight(base, link));
    }
    Ok(firm)
}
