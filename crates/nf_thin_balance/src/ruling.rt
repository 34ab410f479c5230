// The test of a pattern: whether some flow within the ranges of its states is conserved at every node.
ghost use Rattle.std.specs.Prelude.{◌≡◌, List, length, None, IfOk};
ghost use Rattle.nf_rational.specs.Rational.{ℚ};
ghost use Rattle.nf_model.specs.Pattern.{Solves, Meets};
ghost use Rattle.nf_thin_balance.specs.Scaled.{HasRanges, IsScaled};

use crate::leaves::comes_out;
use crate::node_test::first_unbalanced;
use crate::scaled::Scaled;
use crate::stated::{Stated, fails_at, link_ranges};
use nf_graph::{LinkSets, NodeId};
use nf_net::Network;
use nf_pattern::Pattern;
use std::alloc::{AllocError, Global};

/// Returns a node to test first for the next pattern if this one is rejected, and `None` otherwise. A pattern is rejected if no flow within
/// the ranges of its states is conserved at every node. `scaled` has the ranges at known slopes: a rejected pattern has no solution with
/// these slopes. Tests the node `first` before the others, because successive patterns mostly fail at the same node. Fails if an allocation
/// fails.
pub fn ruled_out_at(
    alloc: Global,
    net: &Network,
    sets: &LinkSets,
    scaled: &Scaled,
    pattern: &Pattern,
    first: NodeId,
) -> Result<Option<NodeId>, AllocError>
    requires sets { length sets.now.active ≡ length net.now.net.links }
    requires scaled { HasRanges net.now.net scaled.now }
    requires states { length pattern.now ≡ length net.now.net.links }
    ensures { IfOk result
        (λ node. (rate : ℚ) (slopes flows : List ℚ) → IsScaled net.now.net rate slopes scaled.now
        → Solves net.now.net sets.now rate pattern.now flows slopes
        → Meets net.now.net pattern.now flows slopes → node ≡ None) }
{
    // Proof: the network is well formed.
    net.recall();
    let supply = scaled.supply;
    let stated = Stated {
        net,
        sets,
        full: &scaled.full,
        pattern,
    };
    if fails_at(&stated, supply, first) {
        return Ok(Some(first));
    }
    let mut ranges = link_ranges(alloc, &stated)?;
    if let Some(node) = first_unbalanced(alloc, net, supply, &ranges)? {
        return Ok(Some(node));
    }
    if comes_out(alloc, net, supply, &mut ranges)? {
        Ok(None)
    } else {
        Ok(Some(first))
    }
}
