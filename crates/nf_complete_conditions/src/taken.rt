// Links from which nodes take their slopes.
ghost use Rattle.std.specs.Prelude.{◌≡◌, ◌<◌, ℕ, length, MatchBool};
ghost use Rattle.nf_complete_conditions.specs.ThinParts.{Takes, EachIsTaken};

use crate::leading::{brings, is_level, leads_into};
use nf_frac::Q;
use nf_graph::{LinkId, LinkSets, NodeId};
use nf_net::Network;

// Returns whether a node takes its slope from the link. The link must be active and enter the node. The link must also be resetting, carry
// flow, or have equal slopes at its ends.
fn takes(
    net: &Network,
    sets: &LinkSets,
    flows: &[Q],
    slopes: &[Q],
    node: NodeId,
    link: LinkId,
) -> bool
    requires link { link < length net.now.net.links }
    requires sets { length sets.now.active ≡ length net.now.net.links }
    requires flows { length flows.now ≡ length net.now.net.links }
    requires slopes { length slopes.now ≡ net.now.net.nodes }
    ensures { MatchBool result (Takes net.now.net sets.now flows.now slopes.now node link)
        (Takes net.now.net sets.now flows.now slopes.now node link → ⊥) }
{
    if !leads_into(net, sets, link, node) {
        return false;
    }
    if brings(sets, flows, link) {
        return true;
    }
    is_level(net, slopes, link)
}

// Returns whether the node takes its slope from some link.
fn is_taken(net: &Network, sets: &LinkSets, flows: &[Q], slopes: &[Q], node: NodeId) -> bool
    requires sets { length sets.now.active ≡ length net.now.net.links }
    requires flows { length flows.now ≡ length net.now.net.links }
    requires slopes { length slopes.now ≡ net.now.net.nodes }
    ensures { MatchBool result ((e : ℕ) × Takes net.now.net sets.now flows.now slopes.now node e)
        ((e : ℕ) → Takes net.now.net sets.now flows.now slopes.now node e → ⊥) }
{
    for e in 0..net.link_count() {
        if takes(net, sets, flows, slopes, node, LinkId(e)) {
            return true;
        }
    }
    false
}

/// Returns whether every node except the source takes its slope from an active incoming link.
pub(crate) fn each_is_taken(net: &Network, sets: &LinkSets, flows: &[Q], slopes: &[Q]) -> bool
    requires sets { length sets.now.active ≡ length net.now.net.links }
    requires flows { length flows.now ≡ length net.now.net.links }
    requires slopes { length slopes.now ≡ net.now.net.nodes }
    ensures { MatchBool result (EachIsTaken net.now.net sets.now flows.now slopes.now)
        (EachIsTaken net.now.net sets.now flows.now slopes.now → ⊥) }
{
    let source = net.source();
    for v in 0..net.node_count() {
        let node = NodeId(v);
        if node != source {
            if !is_taken(net, sets, flows, slopes, node) {
                return false;
            }
        }
    }
    true
}
