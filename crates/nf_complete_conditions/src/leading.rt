// Tests on active links into a node.
ghost use Rattle.std.specs.Prelude.{◌≡◌, ◌<◌, length, MatchBool};
ghost use Rattle.nf_complete_conditions.specs.ThinParts.{LeadsInto, IsLevelAt, Brings};

use crate::numbers::{flow_of, slope_of};
use nf_frac::Q;
use nf_graph::{LinkId, LinkSets, NodeId};
use nf_net::Network;

/// Returns whether the link is active and enters the node.
pub fn leads_into(net: &Network, sets: &LinkSets, link: LinkId, node: NodeId) -> bool
    requires link { link < length net.now.net.links }
    requires sets { length sets.now.active ≡ length net.now.net.links }
    ensures { MatchBool result (LeadsInto net.now.net sets.now node link)
        (LeadsInto net.now.net sets.now node link → ⊥) }
{
    let here = net.link(link);
    if !sets.active(link) {
        return false;
    }
    here.head == node
}

/// Returns whether the slopes at the link's ends are equal.
pub fn is_level(net: &Network, slopes: &[Q], link: LinkId) -> bool
    requires link { link < length net.now.net.links }
    requires slopes { length slopes.now ≡ net.now.net.nodes }
    ensures { MatchBool result (IsLevelAt net.now.net slopes.now link)
        (IsLevelAt net.now.net slopes.now link → ⊥) }
{
    let here = net.link(link);
    slope_of(slopes, here.head).is_same(slope_of(slopes, here.tail))
}

/// Returns whether the link is resetting or carries flow.
pub fn brings(sets: &LinkSets, flows: &[Q], link: LinkId) -> bool
    requires link { link < length sets.now.active }
    requires flows { length flows.now ≡ length sets.now.active }
    ensures { MatchBool result (Brings sets.now flows.now link)
        (Brings sets.now flows.now link → ⊥) }
{
    if sets.resetting(link) {
        return true;
    }
    !flow_of(flows, link).is_same(Q::zero())
}
