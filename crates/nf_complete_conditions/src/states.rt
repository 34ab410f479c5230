// The pattern of settled flows.
ghost use Rattle.std.specs.Prelude.{◌≡◌, ◌<◌, length, Some, Ok, IfOk, MatchBool};
ghost use Rattle.nf_frac_def.specs.Passing.{passes_Q};
ghost use Rattle.nf_model.specs.Network.{Link as SeenLink, IsLink};
ghost use Rattle.nf_model.specs.Pattern.{NeedsState};
ghost use Rattle.nf_complete_def.specs.Cancelling.{fulls_list};
ghost use Rattle.nf_complete_def.specs.SettledPattern.{IsBare, LeadsToBare, IsSettledPattern};
ghost use Rattle.nf_complete_conditions.specs.States.{BringsInto, LevelInto, NoneLevelBefore, full_test, IsStateAt};

use crate::leading::{brings, is_level, leads_into};
use crate::numbers::flow_of;
use nf_frac::Q;
use nf_graph::{LinkId, LinkSets, NodeId};
use nf_model::State;
use nf_net::Network;
use nf_pattern::Pattern;
use std::alloc::{AllocError, Global};

// Returns whether the link is active, enters the node, and is resetting or carries flow.
fn brings_into(net: &Network, sets: &LinkSets, flows: &[Q], link: LinkId, node: NodeId) -> bool
    requires link { link < length net.now.net.links }
    requires sets { length sets.now.active ≡ length net.now.net.links }
    requires flows { length flows.now ≡ length net.now.net.links }
    ensures { MatchBool result (BringsInto net.now.net sets.now flows.now node link)
        (BringsInto net.now.net sets.now flows.now node link → ⊥) }
{
    if !leads_into(net, sets, link, node) {
        return false;
    }
    brings(sets, flows, link)
}

// Returns whether the node is not the source and has no inflow: no active link into it is resetting or carries flow.
fn is_bare(net: &Network, sets: &LinkSets, flows: &[Q], node: NodeId) -> bool
    requires sets { length sets.now.active ≡ length net.now.net.links }
    requires flows { length flows.now ≡ length net.now.net.links }
    ensures { MatchBool result (IsBare net.now.net sets.now flows.now node)
        (IsBare net.now.net sets.now flows.now node → ⊥) }
{
    if node == net.source() {
        return false;
    }
    for e in 0..net.link_count() {
        if brings_into(net, sets, flows, LinkId(e), node) {
            return false;
        }
    }
    true
}

// Returns whether the link is active, enters the node, and has equal slopes at its ends.
fn is_level_into(net: &Network, sets: &LinkSets, slopes: &[Q], link: LinkId, node: NodeId) -> bool
    requires link { link < length net.now.net.links }
    requires sets { length sets.now.active ≡ length net.now.net.links }
    requires slopes { length slopes.now ≡ net.now.net.nodes }
    ensures { MatchBool result (LevelInto net.now.net sets.now slopes.now node link)
        (LevelInto net.now.net sets.now slopes.now node link → ⊥) }
{
    if !leads_into(net, sets, link, node) {
        return false;
    }
    is_level(net, slopes, link)
}

// Returns whether no active link into the node before `link` has equal slopes at its ends.
fn none_level_before(
    net: &Network,
    sets: &LinkSets,
    slopes: &[Q],
    link: LinkId,
    node: NodeId,
) -> bool
    requires link { link < length net.now.net.links }
    requires sets { length sets.now.active ≡ length net.now.net.links }
    requires slopes { length slopes.now ≡ net.now.net.nodes }
    ensures { MatchBool result (NoneLevelBefore net.now.net sets.now slopes.now node link)
        (NoneLevelBefore net.now.net sets.now slopes.now node link → ⊥) }
{
    for e in 0..link.0 {
        if is_level_into(net, sets, slopes, LinkId(e), node) {
            return false;
        }
    }
    true
}

// Returns whether the link is the first active one with equal slopes at its ends into a node without inflow.
fn leads_to_bare(net: &Network, sets: &LinkSets, flows: &[Q], slopes: &[Q], link: LinkId) -> bool
    requires link { link < length net.now.net.links }
    requires sets { length sets.now.active ≡ length net.now.net.links }
    requires flows { length flows.now ≡ length net.now.net.links }
    requires slopes { length slopes.now ≡ net.now.net.nodes }
    ensures { (here : SeenLink) → IsLink net.now.net link here
        → MatchBool result (LeadsToBare net.now.net sets.now flows.now slopes.now link here)
        (LeadsToBare net.now.net sets.now flows.now slopes.now link here → ⊥) }
{
    let node = net.link(link).head;
    if !is_level_into(net, sets, slopes, link, node) {
        return false;
    }
    if !is_bare(net, sets, flows, node) {
        return false;
    }
    none_level_before(net, sets, slopes, link, node)
}

// Returns whether the flow fills the link.
fn is_full(full: Option<Q>, flow: Q) -> bool
    ensures { result ≡ full_test full flow }
{
    match full {
        Some(full) => flow.is_same(full),
        None => false,
    }
}

// Returns the state of a link that needs one.
fn state_needed(
    net: &Network,
    sets: &LinkSets,
    fulls: &[Option<Q>],
    flows: &[Q],
    slopes: &[Q],
    link: LinkId,
) -> State
    requires link { link < length net.now.net.links }
    requires sets { length sets.now.active ≡ length net.now.net.links }
    requires flows { length flows.now ≡ length net.now.net.links }
    requires slopes { length slopes.now ≡ net.now.net.nodes }
    requires fulls { fulls_list passes_Q net.now.net sets.now slopes.now ≡ Ok fulls.now }
    requires needs { NeedsState sets.now link }
    ensures { IsStateAt net.now.net sets.now flows.now slopes.now link (Some result) }
{
    if flow_of(flows, link).is_same(Q::zero()) {
        if leads_to_bare(net, sets, flows, slopes, link) {
            State::Tight
        } else {
            State::Zero
        }
    } else if is_full(fulls[link.index()], flow_of(flows, link)) {
        State::Full
    } else {
        State::Tight
    }
}

// Returns the state of a link, or `None` if it needs none.
fn state_at(
    net: &Network,
    sets: &LinkSets,
    fulls: &[Option<Q>],
    flows: &[Q],
    slopes: &[Q],
    link: LinkId,
) -> Option<State>
    requires link { link < length net.now.net.links }
    requires sets { length sets.now.active ≡ length net.now.net.links }
    requires flows { length flows.now ≡ length net.now.net.links }
    requires slopes { length slopes.now ≡ net.now.net.nodes }
    requires fulls { fulls_list passes_Q net.now.net sets.now slopes.now ≡ Ok fulls.now }
    ensures { IsStateAt net.now.net sets.now flows.now slopes.now link result }
{
    if !sets.active(link) {
        return None;
    }
    if sets.resetting(link) {
        return None;
    }
    Some(state_needed(net, sets, fulls, flows, slopes, link))
}

/// Returns the pattern of settled flows. A link that needs a state is Zero if it carries no flow, Full if its flow fills it, and otherwise
/// Tight. The first active link with equal slopes at its ends into a node without inflow is also Tight. Fails if an allocation fails.
pub fn settled_pattern(
    alloc: Global,
    net: &Network,
    sets: &LinkSets,
    fulls: &[Option<Q>],
    flows: &[Q],
    slopes: &[Q],
) -> Result<Pattern, AllocError>
    requires sets { length sets.now.active ≡ length net.now.net.links }
    requires flows { length flows.now ≡ length net.now.net.links }
    requires slopes { length slopes.now ≡ net.now.net.nodes }
    requires fulls { fulls_list passes_Q net.now.net sets.now slopes.now ≡ Ok fulls.now }
    ensures { IfOk result
        (λ pattern. IsSettledPattern net.now.net sets.now flows.now slopes.now pattern) }
{
    let mut pattern = Pattern::none(alloc, net.link_count())?;
    for e in 0..net.link_count() {
        let link = LinkId(e);
        let state = state_at(net, sets, fulls, flows, slopes, link);
        pattern.set(link, state);
    }
    Ok(pattern)
}
