// A bound from below on the rank of a listed pattern, by families of freely combinable states. No pattern is in two families.
ghost use Rattle.std.specs.Prelude.{◌≡◌, ◌≢◌, ◌<◌, ◌≤◌, true, length, IfOk, IfSome, Some, slice_get, slice_set};
ghost use Rattle.nf_model.specs.declared.State.{State};
ghost use Rattle.nf_model.specs.ThinFlow.{Sets};
ghost use Rattle.nf_model.specs.Pattern.{HasState};
ghost use Rattle.nf_thin_rank.specs.Firming.{MayKeep};
ghost use Rattle.nf_thin_rank.specs.Families.{IsSpare, IsByOther, CountsBefore};
ghost use Rattle.nf_thin_rank.specs.Posing.{IsPosed, question_in, IsListedFor, AreKeepersFor};

use crate::firming::{firm_states, keepers, leads};
use crate::ranking::Ranking;
use nf_graph::{LinkId, NodeId};
use nf_net::Network;
use nf_pattern::Pattern;
use nf_thin_narrow::firm_ways_before;
use std::alloc::{AllocError, Global};

// A keeper that may be Zero if another link keeps its head.
#[derive(Clone, Copy)]
struct Spare {
    keeper: LinkId,
    other: LinkId,
}

// Returns whether two nodes are the same.
fn is_one_node(one: NodeId, other: NodeId) -> bool
    ensures { result ≡ true → one ≡ other }
{
    one == other
}

// Returns whether two links differ.
fn is_other(one: LinkId, other: LinkId) -> bool
    ensures { result ≡ true → one ≢ other }
{
    one != other
}

// Returns whether the link is Tight or Full, enters the node, and is not its keeper.
fn may_replace(net: &Network, listed: &Pattern, node: NodeId, keeper: LinkId, link: LinkId) -> bool
    requires link { link < length net.now.net.links }
    requires listed { length listed.now ≡ length net.now.net.links }
    ensures differs { result ≡ true → link ≢ keeper }
    ensures keeps { result ≡ true → (sets : Sets) → MayKeep net.now.net sets listed.now link node }
{
    if !is_other(link, keeper) {
        return false;
    }
    let here = net.link(link);
    if !is_one_node(here.head, node) {
        return false;
    }
    leads(listed.state(link))
}

// Returns a Tight or Full link into the node other than its keeper, or `None` if there is none.
fn other_keeper(net: &Network, listed: &Pattern, node: NodeId, keeper: LinkId) -> Option<LinkId>
    requires listed { length listed.now ≡ length net.now.net.links }
    ensures { IfSome result (λ other. (other ≢ keeper)
        × ((sets : Sets) → MayKeep net.now.net sets listed.now other node)) }
{
    for e in 0..net.link_count() {
        if may_replace(net, listed, node, keeper, LinkId(e)) {
            return Some(LinkId(e));
        }
    }
    None
}

// Returns the node's keeper, or `None` if it has none.
fn keeper_of(keepers: &[Option<LinkId>], node: NodeId) -> Option<LinkId>
    requires { node < length keepers.now }
    ensures { slice_get keepers.now node ≡ Some result }
{
    keepers[node.index()]
}

// Returns whether the link has a state.
fn has_state(base: &Pattern, link: LinkId) -> bool
    requires { link < length base.now }
    ensures { result ≡ true → (state : State) × HasState base.now link state }
{
    base.state(link).is_some()
}

// Returns the node's keeper with another link that may keep the node, if the keeper has a state.
fn spare_keeper(
    ranking: &Ranking,
    listed: &Pattern,
    keepers: &[Option<LinkId>],
    node: NodeId,
) -> Option<Spare>
    requires ranking { IsPosed ranking.now }
    requires listed { IsListedFor ranking.now listed.now }
    requires keepers { AreKeepersFor ranking.now listed.now keepers.now }
    requires node { node < ranking.now.net.now.net.nodes }
    ensures { IfSome result (IsSpare ranking.now.net.now.net ranking.now.sets.now
        ranking.now.base.now listed.now keepers.now node) }
{
    let keeper = keeper_of(keepers, node)?;
    if !has_state(ranking.base, keeper) {
        return None;
    }
    let other = other_keeper(ranking.net, listed, node, keeper)?;
    Some(Spare { keeper, other })
}

// Returns the keepers with another one for a node. Fails if an allocation fails.
fn with_other(
    alloc: Global,
    keepers: &[Option<LinkId>],
    node: NodeId,
    other: LinkId,
) -> Result<Vec<Option<LinkId>>, AllocError>
    requires { node < length keepers.now }
    ensures { IfOk result (λ changed. changed.items ≡ slice_set keepers.now node (Some other)) }
{
    let mut changed = keepers.to_vec(alloc)?;
    changed[node.index()] = Some(other);
    Ok(changed)
}

// Returns how many assignments come before the pattern in the family in which the node's keeper is Zero, and another link keeps the node.
// Returns 0 if there is no such family. Fails if an allocation fails.
fn ways_by_other(
    alloc: Global,
    ranking: &Ranking,
    pattern: &Pattern,
    listed: &Pattern,
    keepers: &[Option<LinkId>],
    node: NodeId,
) -> Result<u64, AllocError>
    requires ranking { IsPosed ranking.now }
    requires pattern { length pattern.now ≡ length ranking.now.net.now.net.links }
    requires listed { IsListedFor ranking.now listed.now }
    requires keepers { AreKeepersFor ranking.now listed.now keepers.now }
    requires node { node < ranking.now.net.now.net.nodes }
    ensures { IfOk result
        (λ ways. IsByOther ranking.now.net.now.net ranking.now.sets.now ranking.now.base.now
        pattern.now listed.now keepers.now node ways) }
{
    let Some(spare) = spare_keeper(ranking, listed, keepers, node) else {
        return Ok(0);
    };
    let changed = with_other(alloc, keepers, node, spare.other)?;
    let firm = firm_states(alloc, ranking, listed, &changed, spare.keeper)?;
    firm_ways_before(alloc, ranking.base, pattern, &firm)
}

// Returns how many nodes may have a further family: none if the number of the first family decides, or is less than half the budget.
fn nodes_to_count(nodes: u32, ways: u64, budget: u64) -> u32
    ensures { result ≤ nodes }
{
    if ways >= budget || ways.saturating_mul(2) < budget {
        0
    } else {
        nodes
    }
}

// Returns the number of assignments before the pattern in all families with these keepers. Fails if an allocation fails.
fn all_ways(
    alloc: Global,
    ranking: &Ranking,
    pattern: &Pattern,
    listed: &Pattern,
    keepers: &[Option<LinkId>],
) -> Result<u64, AllocError>
    requires ranking { IsPosed ranking.now }
    requires pattern { length pattern.now ≡ length ranking.now.net.now.net.links }
    requires listed { IsListedFor ranking.now listed.now }
    requires keepers { AreKeepersFor ranking.now listed.now keepers.now }
    ensures { IfOk result (λ ways. CountsBefore (question_in ranking.now) pattern.now ways) }
{
    let count = ranking.net.link_count();
    let no_link = LinkId(count);
    let firm = firm_states(alloc, ranking, listed, keepers, no_link)?;
    let mut ways = firm_ways_before(alloc, ranking.base, pattern, &firm)?;
    let nodes = ranking.net.node_count();
    for v in 0..nodes_to_count(nodes, ways, ranking.budget) {
        let node = NodeId(v);
        let more = ways_by_other(alloc, ranking, pattern, listed, keepers, node)?;
        ways = ways.saturating_add(more);
    }
    Ok(ways)
}

/// Returns a number of listed patterns that come before a listed pattern. The first family has a keeper for each node, which is not Zero.
/// For each node with a further link that may keep it, another family has the keeper Zero. These are counted only if the first family has
/// at least half as many as the budget. Fails if an allocation fails.
pub(crate) fn listed_before(
    alloc: Global,
    ranking: &Ranking,
    pattern: &Pattern,
    listed: &Pattern,
) -> Result<u64, AllocError>
    requires ranking { IsPosed ranking.now }
    requires pattern { length pattern.now ≡ length ranking.now.net.now.net.links }
    requires listed { IsListedFor ranking.now listed.now }
    ensures { IfOk result (λ ways. CountsBefore (question_in ranking.now) pattern.now ways) }
{
    let keepers = keepers(alloc, ranking, listed)?;
    all_ways(alloc, ranking, pattern, listed, &keepers)
}
