// The listing of the patterns left without the forced links.
ghost use Rattle.std.specs.Prelude.{◌≡◌, length, IfOk};
ghost use Rattle.nf_model.specs.Network.{hops as hops_of};
ghost use Rattle.nf_model.specs.Pattern.{IsPattern};
ghost use Rattle.nf_graph.specs.Graph.{AreBelow};
ghost use Rattle.nf_graph.specs.Sets.{AreLinkSets};
ghost use Rattle.nf_pattern.specs.Given.{AtStart};
ghost use Rattle.nf_thin_laws.specs.Forcing.{IsForcing};
ghost use Rattle.nf_thin_narrow.specs.Asking.{question_left};

use crate::filling::{left_pattern, left_sets};
use nf_graph::LinkSets;
use nf_net::Network;
use nf_pattern::{Pattern, Patterns};
use std::alloc::{AllocError, Global};

/// Returns the listing of the patterns left without the forced links. Fails if an allocation fails. With the forced states put in, these
/// are the listed patterns that have the forced states, in the same order.
pub fn narrow_listing(
    alloc: Global,
    net: &Network,
    sets: &LinkSets,
    base: &Pattern,
    unbounded: &[bool],
    forced: &Pattern,
) -> Result<Patterns, AllocError>
    requires ends { AreBelow net.now.net.nodes (hops_of net.now.net) }
    requires active { length sets.now.active ≡ length net.now.net.links }
    requires resetting { length sets.now.resetting ≡ length net.now.net.links }
    requires unbounded { length unbounded.now ≡ length net.now.net.links }
    requires base { IsPattern sets.now unbounded.now base.now }
    requires sets { AreLinkSets sets.now }
    requires forcing { IsForcing sets.now unbounded.now forced.now }
    ensures { IfOk result (λ patterns. patterns ≡ record {
      question = question_left forced.now (record {
        nodes = net.now.net.nodes;
        source = net.now.net.source;
        hops = hops_of net.now.net;
        sets = sets.now;
        unbounded = unbounded.now;
        base = base.now;
      });
      last = AtStart;
      place = 0;
    }) }
{
    let hops = net.hops();
    let nodes = net.node_count();
    let links = net.link_count();
    let left = left_sets(alloc, forced, sets, links)?;
    let part = left_pattern(alloc, forced, base, links)?;
    Patterns::new(alloc, nodes, net.source(), hops, &left, &part, unbounded)
}
