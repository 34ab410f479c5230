// Bellman-Ford rounds. In each round every residual arc whose begin has a known path offers an extended path to its end. Offering a path
// again changes nothing, so a round uses only the paths found in the round before.
ghost use Rattle.std.specs.Prelude.{◌≡◌, ℕ, ◌<◌, ◌≤◌, length, set, true, Some, None, Ok, IfOk, IfSome, OnOk};
ghost use Rattle.nf_frac_def.specs.declared.Part.TheVariants.{Quick};
ghost use Rattle.nf_frac_def.specs.Passing.{passes_Q};
ghost use Rattle.nf_frac_def.specs.Checked.{at_part, fold_checked, Gives};
ghost use Rattle.nf_quick_def.specs.Rounds.{Known, known_at, along as along_by, reaches_list};
ghost use Rattle.nf_residual.specs.Legs.{AreLegs, along_leg, AreSettled, GivesBy};
ghost use Rattle.nf_residual.specs.Chains.{legs_out, AreChains};
ghost use Rattle.nf_residual.specs.Ways.{place_at, way_at, known_by, first_places as first_places_by, ArePathsBelow, IsPathTree, Grows};

use crate::legs::{Arcs, Leg, legs_of};
use crate::length::Length;
use crate::reaches::{Reaches, place_of};
use crate::ways::Ways;
use nf_frac::{Halt, Q};
use nf_graph::NodeId;
use nf_net::Network;
use std::alloc::{AllocError, Global};

fn put(places: &mut Vec<Option<usize>>, node: NodeId, way: usize)
    requires { node < length places.old.items }
    ensures { places.new.items ≡ set places.old.items node (Some way) }
{
    places[node.index()] = Some(way);
}

// Offers the path extended by a residual arc to the end of that arc, and records the extended path if it is better than the known one.
// Computes its length over fractions.
#[cold]
fn offer_value(
    way: usize,
    leg: &Leg,
    ways: &mut Ways,
    places: &mut Vec<Option<usize>>,
) -> Result<(), Halt<Q>>
    requires way { way < length ways.old }
    requires end { leg.now.end < length places.old.items }
    requires within { ArePathsBelow (length ways.old) places.old.items }
    ensures list { Gives (λ _. known_by ways.new places.new.items) (λ q. q) result
        (at_part Quick (along_by passes_Q true
        (Some (way_at ways.old way)) leg.now.step leg.now.transit leg.now.end
        (known_by ways.old places.old.items))) }
    ensures grows { OnOk result (Grows ways.old ways.new places.old.items places.new.items) }
    ensures tree { IsPathTree ways.old }
{
    let number = ways.count();
    let distance = ways.changed(way, leg)?;
    if !ways.is_gain(way, leg.step, &distance, place_of(places, leg.end.index())) {
        return Ok(());
    }
    ways.add(way, leg.step, distance)?;
    put(places, leg.end, number);
    Ok(())
}

// Does the same as `offer_value`. Whole lengths need no fraction.
#[inline(always)]
fn offer(
    way: usize,
    leg: &Leg,
    ways: &mut Ways,
    places: &mut Vec<Option<usize>>,
) -> Result<(), Halt<Q>>
    requires way { way < length ways.old }
    requires end { leg.now.end < length places.old.items }
    requires within { ArePathsBelow (length ways.old) places.old.items }
    ensures list { Gives (λ _. known_by ways.new places.new.items) (λ q. q) result
        (at_part Quick (along_by passes_Q true
        (Some (way_at ways.old way)) leg.now.step leg.now.transit leg.now.end
        (known_by ways.old places.old.items))) }
    ensures grows { OnOk result (Grows ways.old ways.new places.old.items places.new.items) }
    ensures tree { IsPathTree ways.old }
{
    let number = ways.count();
    let Some(whole) = ways.whole_change(way, leg) else {
        return offer_value(way, leg, ways, places);
    };
    if !ways.is_whole_gain(way, leg.step, whole, place_of(places, leg.end.index())) {
        return Ok(());
    }
    ways.add(way, leg.step, Length::of_whole(whole))?;
    put(places, leg.end, number);
    Ok(())
}

// Returns the path to a node if its index is at least `fresh`, that is, if the round before found it.
fn fresh_at(node: usize, fresh: usize, before: &[Option<usize>]) -> Option<usize>
    requires { node < length before.now }
    ensures way { IfSome result (λ way. place_at before.now node ≡ Some way) }
    ensures old { result ≡ None → (way : ℕ) → place_at before.now node ≡ Some way → way < fresh }
{
    match place_of(before, node) {
        Some(way) if way >= fresh => Some(way),
        _ => None,
    }
}

// Returns the path to the begin of an arc if the round before found it.
fn fresh_way(leg: &Leg, fresh: usize, before: &[Option<usize>]) -> Option<usize>
    requires { leg.now.begin < length before.now }
    ensures way { IfSome result (λ way. place_at before.now leg.now.begin ≡ Some way) }
    ensures old { result ≡ None → (way : ℕ) → place_at before.now leg.now.begin ≡ Some way
        → way < fresh }
{
    fresh_at(leg.begin.index(), fresh, before)
}

// Performs one round in the order of the arcs. `before` holds the best paths before the round, `places` those after it.
#[cold]
fn round_in_order(
    legs: &[Leg],
    fresh: usize,
    before: &[Option<usize>],
    ways: &mut Ways,
    places: &mut Vec<Option<usize>>,
) -> Result<(), Halt<Q>>
    requires legs { AreLegs (length before.now) legs.now }
    requires tree { IsPathTree ways.old }
    requires same { places.old.items ≡ before.now }
    requires within { ArePathsBelow (length ways.old) before.now }
    requires settled { AreSettled passes_Q legs.now fresh ways.old before.now }
    ensures list { Gives (λ _. known_by ways.new places.new.items) (λ q. q) result
        (at_part Quick (fold_checked (along_leg passes_Q (known_by ways.old before.now))
        (known_by ways.old before.now) legs.now)) }
    ensures grows { OnOk result (Grows ways.old ways.new before.now places.new.items) }
    ensures settled { OnOk result
        (AreSettled passes_Q legs.now (length ways.old) ways.new places.new.items) }
{
    for leg in legs {
        if let Some(way) = fresh_way(leg, fresh, before) {
            offer(way, leg, ways, places)?;
        }
    }
    Ok(())
}

// Offers the path to a node along each residual arc that begins there. Not inlined: the loop over the nodes then stays short.
#[inline(never)]
fn offer_from(
    node: usize,
    way: usize,
    arcs: &Arcs,
    ways: &mut Ways,
    places: &mut Vec<Option<usize>>,
) -> Result<(), Halt<Q>>
    requires node { node < length places.old.items }
    requires way { way < length ways.old }
    requires within { ArePathsBelow (length ways.old) places.old.items }
    requires legs { AreLegs (length places.old.items) arcs.now.legs.items }
    requires chains { AreChains
        (length places.old.items) arcs.now.legs.items arcs.now.first.items arcs.now.next.items }
    ensures list { (before : Known) → known_at before node ≡ Some (way_at ways.old way)
        → OnOk result
        (fold_checked (along_leg passes_Q before) (known_by ways.old places.old.items)
        (legs_out node arcs.now.legs.items)
        ≡ Ok (known_by ways.new places.new.items)) }
    ensures grows { OnOk result (Grows ways.old ways.new places.old.items places.new.items) }
{
    let mut arc = arcs.first_of(node);
    while arc < arcs.legs.len() {
        offer(way, &arcs.legs[arc], ways, places)?;
        arc = arcs.after(arc);
    }
    Ok(())
}

// Performs one round node by node. The order changes only which operation exceeds its bound first.
fn round_by_nodes(
    arcs: &Arcs,
    fresh: usize,
    before: &[Option<usize>],
    ways: &mut Ways,
    places: &mut Vec<Option<usize>>,
) -> Result<(), Halt<Q>>
    requires legs { AreLegs (length before.now) arcs.now.legs.items }
    requires chains { AreChains
        (length before.now) arcs.now.legs.items arcs.now.first.items arcs.now.next.items }
    requires tree { IsPathTree ways.old }
    requires same { places.old.items ≡ before.now }
    requires within { ArePathsBelow (length ways.old) before.now }
    requires settled { AreSettled passes_Q arcs.now.legs.items fresh ways.old before.now }
    ensures list { OnOk result
        (fold_checked (along_leg passes_Q (known_by ways.old before.now))
        (known_by ways.old before.now) arcs.now.legs.items
        ≡ Ok (known_by ways.new places.new.items)) }
    ensures grows { OnOk result (Grows ways.old ways.new before.now places.new.items) }
    ensures settled { OnOk result
        (AreSettled passes_Q arcs.now.legs.items (length ways.old) ways.new places.new.items) }
{
    for node in 0..before.len() {
        if let Some(way) = fresh_at(node, fresh, before) {
            offer_from(node, way, arcs, ways, places)?;
        }
    }
    Ok(())
}

// Performs one round, in the order of the arcs or node by node. Only the former finds the first operation that exceeds its bound.
fn round(
    in_order: bool,
    arcs: &Arcs,
    fresh: usize,
    before: &[Option<usize>],
    ways: &mut Ways,
    places: &mut Vec<Option<usize>>,
) -> Result<(), Halt<Q>>
    requires legs { AreLegs (length before.now) arcs.now.legs.items }
    requires chains { AreChains
        (length before.now) arcs.now.legs.items arcs.now.first.items arcs.now.next.items }
    requires tree { IsPathTree ways.old }
    requires same { places.old.items ≡ before.now }
    requires within { ArePathsBelow (length ways.old) before.now }
    requires settled { AreSettled passes_Q arcs.now.legs.items fresh ways.old before.now }
    ensures list { GivesBy in_order (λ _. known_by ways.new places.new.items) result (at_part Quick
        (fold_checked (along_leg passes_Q (known_by ways.old before.now))
        (known_by ways.old before.now) arcs.now.legs.items)) }
    ensures grows { OnOk result (Grows ways.old ways.new before.now places.new.items) }
    ensures settled { OnOk result
        (AreSettled passes_Q arcs.now.legs.items (length ways.old) ways.new places.new.items) }
{
    if in_order {
        round_in_order(&arcs.legs, fresh, before, ways, places)
    } else {
        round_by_nodes(arcs, fresh, before, ways, places)
    }
}

// Returns the initial indices: path 0 for the node `from`, and None for each other node.
fn first_places(
    alloc: Global,
    net: &Network,
    from: NodeId,
) -> Result<Vec<Option<usize>>, AllocError>
    requires { from < net.now.net.nodes }
    ensures { IfOk result (λ places. places.items ≡ first_places_by net.now.net.nodes from) }
{
    let mut places = vec![in alloc; None; net.node_count() as usize]?;
    put(&mut places, from, 0);
    Ok(places)
}

// Returns the result of `reaches`, from rounds in the order of the arcs or node by node. The rounds end early if one finds no new path,
// since later ones would find none either.
fn reaches_by(
    alloc: Global,
    net: &Network,
    flows: &[Q],
    from: NodeId,
    in_order: bool,
) -> Result<Reaches, Halt<Q>>
    requires flows { length flows.now ≡ length net.now.net.links }
    requires from { from < net.now.net.nodes }
    ensures list { GivesBy in_order (λ known. known) result
        (at_part Quick (reaches_list passes_Q net.now.net flows.now from)) }
    ensures count { IfOk result (λ known. length known ≡ net.now.net.nodes) }
{
    let legs = legs_of(alloc, net, flows)?;
    let arcs = Arcs::of(alloc, net.node_count(), legs)?;
    let mut ways = Ways::start(alloc, net.link_count() as usize)?;
    let mut places = first_places(alloc, net, from)?;
    let mut next = places.as_slice().to_vec(alloc)?;
    let mut fresh = 0;
    for _ in 1..net.node_count() {
        let count = ways.count();
        next.copy_from_slice(&places);
        round(in_order, &arcs, fresh, &places, &mut ways, &mut next)?;
        if ways.count() == count {
            return Ok(Reaches::of(ways, places));
        }
        fresh = count;
        std::mem::swap(&mut places, &mut next);
    }
    Ok(Reaches::of(ways, places))
}

/// Returns the best residual path from one node to each node, or None if no residual walk leads there. At most one round fewer than there
/// are nodes is performed. If an operation exceeds its bound, the rounds are repeated in the order of the arcs, to find the first such
/// operation.
pub(crate) fn reaches(
    alloc: Global,
    net: &Network,
    flows: &[Q],
    from: NodeId,
) -> Result<Reaches, Halt<Q>>
    requires flows { length flows.now ≡ length net.now.net.links }
    requires from { from < net.now.net.nodes }
    ensures list { Gives (λ known. known) (λ q. q) result
        (at_part Quick (reaches_list passes_Q net.now.net flows.now from)) }
    ensures count { IfOk result (λ known. length known ≡ net.now.net.nodes) }
{
    match reaches_by(alloc, net, flows, from, false) {
        Err(Halt::Passed(_)) => reaches_by(alloc, net, flows, from, true),
        found => found,
    }
}
