// Flow conservation at the nodes.
ghost use Rattle.std.specs.Prelude.{◌≡◌, ◌<◌, ◌&&◌, ◌==◌, ℕ, List, length, if◌then◌else◌};
ghost use Rattle.std.specs.List.{enumerate_from, range_with_len};
ghost use Rattle.nf_rational.specs.Rational.{ℚ};
ghost use Rattle.nf_rational.specs.Operations.{0ℚ};
ghost use Rattle.nf_frac_def.specs.declared.Part.TheVariants.{Verdict};
ghost use Rattle.nf_frac_def.specs.Passing.{passes_Q};
ghost use Rattle.nf_frac_def.specs.Checked.{at_part, each, fold_checked};
ghost use Rattle.nf_model.specs.Network.{Network as SeenNetwork, Link as SeenLink, IsLink};
ghost use Rattle.nf_model.specs.ThinFlow.{Sets};
ghost use Rattle.nf_complete_def.specs.ThinList.{is_active, sum_more, with_rate as with_rate_by, sums_at};
ghost use Rattle.nf_complete_conditions.specs.NodeSums.{node_by, more_at};
ghost use Rattle.nf_complete_conditions.specs.Testing.{AnswersWhether};
ghost use Rattle.nf_complete_conditions.specs.ThinParts.{IsBalanced};

use crate::numbers::both;
use nf_frac::{Part, PassedAt, Q, at};
use nf_graph::{LinkId, LinkSets, NodeId};
use nf_net::Network;

// Adds the flow of a link to a sum, if the link is active and has an end at the node.
fn with_flow(
    sets: &LinkSets,
    flows: &[Q],
    link: LinkId,
    at_node: bool,
    so_far: Q,
) -> Result<Q, PassedAt<Q>>
    requires link { link < length sets.now.active }
    requires flows { length flows.now ≡ length sets.now.active }
    ensures { (net : SeenNetwork) (rate : ℚ) → result ≡ at_part Verdict
        (sum_more passes_Q net sets.now rate flows.now
        (is_active passes_Q net sets.now rate flows.now link && at_node) so_far link) }
{
    if sets.active(link) && at_node {
        let sum = at!(Part::Verdict, so_far.sum(flows[link.index()]));
        Ok(sum)
    } else {
        Ok(so_far)
    }
}

// An end of a link.
#[derive(Clone, Copy)]
enum End {
    Head,
    Tail,
}

// Returns whether the node is at this end of the link.
fn is_at(net: &Network, link: LinkId, end: End, node: NodeId) -> bool
    requires { link < length net.now.net.links }
    ensures { (here : SeenLink) → IsLink net.now.net link here
        → result ≡ (node_by end here == node) }
{
    let here = net.link(link);
    match end {
        End::Head => here.head == node,
        End::Tail => here.tail == node,
    }
}

// Returns the sum of the flows of the active links with this end at the node.
fn flow_at(
    net: &Network,
    sets: &LinkSets,
    flows: &[Q],
    end: End,
    node: NodeId,
) -> Result<Q, PassedAt<Q>>
    requires sets { length sets.now.active ≡ length net.now.net.links }
    requires flows { length flows.now ≡ length net.now.net.links }
    ensures { (rate : ℚ) → result ≡ at_part Verdict
        (fold_checked (more_at passes_Q net.now.net sets.now rate flows.now end node) 0ℚ
        (enumerate_from 0 net.now.net.links)) }
{
    let mut so_far = Q::zero();
    for e in 0..net.link_count() {
        let at_node = is_at(net, LinkId(e), end, node);
        let next = with_flow(sets, flows, LinkId(e), at_node, so_far)?;
        so_far = next;
    }
    Ok(so_far)
}

// Adds the rate to a sum, if the node is the sink.
fn with_rate(stays: bool, sum: Q, rate: Q) -> Result<Q, PassedAt<Q>>
    ensures { (net : SeenNetwork) (sets : Sets) (flows : List ℚ)
        → result ≡ at_part Verdict (with_rate_by passes_Q net sets rate flows stays sum) }
{
    if stays {
        let all = at!(Part::Verdict, sum.sum(rate));
        Ok(all)
    } else {
        Ok(sum)
    }
}

// Returns the inflow of a node: the rate at the source, and the links' flow at any other node.
fn brought(is_source: bool, rate: Q, by_links: Q) -> Q
    ensures { result ≡ (if is_source then rate else by_links) }
{
    if is_source { rate } else { by_links }
}

// Returns whether inflow equals outflow at a node. The inflow of the source is the rate. The outflow of the sink includes the rate.
fn balances_at(
    net: &Network,
    sets: &LinkSets,
    rate: Q,
    flows: &[Q],
    node: NodeId,
) -> Result<bool, PassedAt<Q>>
    requires sets { length sets.now.active ≡ length net.now.net.links }
    requires flows { length flows.now ≡ length net.now.net.links }
    ensures { AnswersWhether (IsBalanced net.now.net sets.now rate flows.now node)
        (sums_at passes_Q net.now.net sets.now rate flows.now node) result }
{
    let by_links = flow_at(net, sets, flows, End::Head, node)?;
    let sent = flow_at(net, sets, flows, End::Tail, node)?;
    let all = with_rate(node == net.sink(), sent, rate)?;
    let brought = brought(node == net.source(), rate, by_links);
    Ok(brought.is_same(all))
}

/// Returns whether inflow equals outflow at every node. The inflow of the source is the rate. The outflow of the sink includes the rate.
/// Refuses exactly at the first sum that passes, with part Verdict.
pub fn balances(net: &Network, sets: &LinkSets, rate: Q, flows: &[Q]) -> Result<bool, PassedAt<Q>>
    requires sets { length sets.now.active ≡ length net.now.net.links }
    requires flows { length flows.now ≡ length net.now.net.links }
    ensures { AnswersWhether
        ((v : ℕ) → v < net.now.net.nodes → IsBalanced net.now.net sets.now rate flows.now v)
        (each (sums_at passes_Q net.now.net sets.now rate flows.now)
        (range_with_len 0 net.now.net.nodes)) result }
{
    let mut all = true;
    for v in 0..net.node_count() {
        let here = balances_at(net, sets, rate, flows, NodeId(v))?;
        all = both(all, here);
    }
    Ok(all)
}
