// Forced states of links: patterns with and without them, and the link sets without the forced links.
ghost use Rattle.std.specs.Prelude.{◌≡◌, length, List, Bool, IfOk};
ghost use Rattle.nf_graph.specs.Sets.{AreLinkSets};
ghost use Rattle.nf_thin_laws.specs.Forcing.{entrywise, free_state as free_state_of, given_state as given_state_of, still_active as still_active_of, now_resetting as now_resetting_of, unforced_of, filled, sets_left, IsForcing};

use nf_graph::{LinkId, LinkSets};
use nf_model::State;
use nf_pattern::Pattern;
use std::alloc::{AllocError, Global};

// Returns the state of a free link, and `None` for a forced link.
fn free_state(forced: Option<State>, state: Option<State>) -> Option<State>
    ensures { result ≡ free_state_of forced state }
{
    match forced {
        None => state,
        Some(_) => None,
    }
}

// Returns the forced state of a link, or its own state if the link is free.
fn given_state(forced: Option<State>, state: Option<State>) -> Option<State>
    ensures { result ≡ given_state_of forced state }
{
    match forced {
        None => state,
        Some(given) => Some(given),
    }
}

// Returns whether the link is active when links forced to be Zero count as inactive.
fn still_active(forced: Option<State>, flag: bool) -> bool
    ensures { result ≡ still_active_of forced flag }
{
    match forced {
        None => flag,
        Some(State::Tight) => flag,
        Some(State::Full) => flag,
        Some(State::Zero) => false,
    }
}

// Returns whether the link is resetting when links forced to be Full count as resetting.
fn now_resetting(forced: Option<State>, flag: bool) -> bool
    ensures { result ≡ now_resetting_of forced flag }
{
    match forced {
        None => flag,
        Some(State::Tight) => flag,
        Some(State::Full) => true,
        Some(State::Zero) => flag,
    }
}

/// Sets the pattern to `part` with the forced states put in.
pub fn fill(pattern: &mut Pattern, forced: &Pattern, part: &Pattern, links: u32)
    requires pattern { length pattern.old ≡ links }
    requires forced { length forced.now ≡ links }
    requires part { length part.now ≡ links }
    ensures { pattern.new ≡ filled forced.now part.now }
{
    for e in 0..links {
        let link = LinkId(e);
        let state = given_state(forced.state(link), part.state(link));
        pattern.set(link, state);
    }
}

// Returns the pattern without the states of forced links. Fails if an allocation fails.
pub(crate) fn left_pattern(
    alloc: Global,
    forced: &Pattern,
    pattern: &Pattern,
    links: u32,
) -> Result<Pattern, AllocError>
    requires forced { length forced.now ≡ links }
    requires pattern { length pattern.now ≡ links }
    ensures { IfOk result (λ left. left ≡ unforced_of forced.now pattern.now) }
{
    let mut left = Pattern::none(alloc, links)?;
    for e in 0..links {
        let link = LinkId(e);
        let state = free_state(forced.state(link), pattern.state(link));
        left.set(link, state);
    }
    Ok(left)
}

// Returns the link sets without the forced links: the active links without those forced to be Zero, and the resetting links with those
// forced to be Full. Fails if an allocation fails.
pub(crate) fn left_sets(
    alloc: Global,
    forced: &Pattern,
    sets: &LinkSets,
    links: u32,
) -> Result<LinkSets, AllocError>
    requires links { length sets.now.active ≡ links }
    requires sets { AreLinkSets sets.now }
    requires forcing { (unbounded : List Bool) × IsForcing sets.now unbounded forced.now }
    ensures { IfOk result (λ left. left ≡ sets_left forced.now sets.now) }
{
    let mut active = Vec::new(alloc);
    let mut resetting = Vec::new(alloc);
    for e in 0..links {
        let link = LinkId(e);
        let forced_here = forced.state(link);
        let stays = still_active(forced_here, sets.active(link));
        active.push(stays)?;
        let resets = now_resetting(forced_here, sets.resetting(link));
        resetting.push(resets)?;
    }
    LinkSets::new(alloc, &active, &resetting)
}
