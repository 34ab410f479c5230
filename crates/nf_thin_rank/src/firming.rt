// Freely combinable states of links, from a listed pattern. Every choice of such states, one for each link, is a listed pattern.
ghost use Rattle.std.specs.Prelude.{◌≡◌, ◌⊎◌, ◌<◌, ℕ, true, length, IfOk, Option, Some, None, slice_get};
ghost use Rattle.nf_model.specs.declared.State.TheVariants.{Tight, Full};
ghost use Rattle.nf_thin_rank.specs.Firming.{AreFirmBy};
ghost use Rattle.nf_thin_rank.specs.Posing.{IsPosed, IsListedFor, AreKeepersFor};

use crate::ranking::Ranking;
use nf_graph::{LinkId, NodeId};
use nf_model::State;
use nf_pattern::Pattern;
use nf_thin_narrow::Firm;
use std::alloc::{AllocError, Global};

/// Returns whether the state is Tight or Full, so that the link enters its head.
pub(crate) fn leads(state: Option<State>) -> bool
    ensures leads { result ≡ true → (state ≡ Some Tight) ⊎ (state ≡ Some Full) }
    ensures all { (state ≡ Some Tight) ⊎ (state ≡ Some Full) → result ≡ true }
{
    matches!(state, Some(State::Tight)) || matches!(state, Some(State::Full))
}

// Returns whether the state is Tight.
fn is_tight(state: Option<State>) -> bool
    ensures { result ≡ true → state ≡ Some Tight }
{
    matches!(state, Some(State::Tight))
}

// Makes the link the keeper of `node`, its head, if it is resetting. A Tight or Full link becomes the keeper if there is none.
fn keep(keepers: &mut [Option<LinkId>], node: NodeId, link: LinkId, resets: bool, leads: bool)
    requires { node < length keepers.old }
    ensures count { length keepers.new ≡ length keepers.old }
    ensures keeps { (v e : ℕ) → slice_get keepers.new v ≡ Some (Some e)
        → (slice_get keepers.old v ≡ Some (Some e))
        ⊎ ((v ≡ node) × (e ≡ link) × ((resets ≡ true) ⊎ (leads ≡ true))) }
    ensures there { (v : ℕ) → slice_get keepers.new v ≡ Some None
        → slice_get keepers.old v ≡ Some None }
    ensures kept { slice_get keepers.new node ≡ Some None → (resets ≡ true) ⊎ (leads ≡ true) → ⊥ }
{
    if resets || (leads && keepers[node.index()].is_none()) {
        keepers[node.index()] = Some(link);
    }
}

/// Returns for each node its keeper, a resetting, Tight or Full link into it, or `None` if there is none. Fails if an allocation fails.
pub(crate) fn keepers(
    alloc: Global,
    ranking: &Ranking,
    listed: &Pattern,
) -> Result<Vec<Option<LinkId>>, AllocError>
    requires ranking { IsPosed ranking.now }
    requires listed { IsListedFor ranking.now listed.now }
    ensures { IfOk result (λ keepers. AreKeepersFor ranking.now listed.now keepers.items) }
{
    let net = ranking.net;
    let mut keepers = vec![in alloc; None; net.node_count() as usize]?;
    for e in 0..net.link_count() {
        let link = LinkId(e);
        let resets = ranking.sets.resetting(link);
        let leads = leads(listed.state(link));
        keep(&mut keepers, net.link(link).head, link, resets, leads);
    }
    Ok(keepers)
}

// Returns whether the link is the keeper of the node.
fn is_keeper(keepers: &[Option<LinkId>], node: NodeId, link: LinkId) -> bool
    requires { node < length keepers.now }
    ensures { slice_get keepers.now node ≡ Some (Some link) → result ≡ true }
{
    match keepers[node.index()] {
        Some(keeper) => keeper == link,
        None => false,
    }
}

// Returns whether the link is the one that must be Zero.
fn is_out(out: LinkId, link: LinkId) -> bool
    ensures { link ≡ out → result ≡ true }
{
    link == out
}

// Returns whether a link may have a state: if `may` is true, and the link need not be Zero.
fn may_have(may: bool, is_out: bool) -> bool
    ensures may { result ≡ true → may ≡ true }
    ensures out { result ≡ true → is_out ≡ true → ⊥ }
{
    may && !is_out
}

/// Returns for each link the states that it may have, such that all choices can be combined. A link may be Tight if it is Tight in the
/// listed pattern, Full if it is bounded, and Zero if it is no node's keeper. If `out` is a link, it may only be Zero. Fails if an
/// allocation fails.
pub(crate) fn firm_states(
    alloc: Global,
    ranking: &Ranking,
    listed: &Pattern,
    keepers: &[Option<LinkId>],
    out: LinkId,
) -> Result<Vec<Firm>, AllocError>
    requires ranking { IsPosed ranking.now }
    requires listed { IsListedFor ranking.now listed.now }
    requires keepers { AreKeepersFor ranking.now listed.now keepers.now }
    ensures { IfOk result (λ firm. AreFirmBy ranking.now.net.now.net ranking.now.sets.now listed.now
        keepers.now out firm.items) }
{
    let mut firm = Vec::new(alloc);
    for e in 0..ranking.net.link_count() {
        let link = LinkId(e);
        let here = ranking.net.link(link);
        let zeroed = is_out(out, link);
        let tight = may_have(is_tight(listed.state(link)), zeroed);
        let full = may_have(here.capacity.is_some(), zeroed);
        let zero = !is_keeper(keepers, here.head, link);
        firm.push(Firm { tight, full, zero })?;
    }
    Ok(firm)
}
