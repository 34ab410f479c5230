// Least transit sums from a node, settled node by node in the order of their sums (after Dijkstra 1959).
ghost use Rattle.std.specs.Prelude.{◌≡◌, ◌^◌, ◌<◌, ℕ, Option, length, slice_get, slice_set, IfOk, IfErr, OnOk, Some};
ghost use Rattle.nf_rational.specs.Rational.{ℚ};
ghost use Rattle.nf_graph.specs.Graph.{AreBelow};
ghost use Rattle.nf_graph.specs.Distances.{NoNegativeTransit, AreDistances, PassesAt, IsUnsettled, AreOffers, AnyLink, IsSumAlong, PassesAlong, StopsAt};
ghost use Rattle.nf_graph.specs.Steps.{ForPassed, lesser_offer, IsOffered, PassesFrom, IsStepTo, IsNearer, IsNearest};

use crate::ids::{Hop, LinkId, NodeId};
use nf_frac::Q;
use std::alloc::{AllocError, AllocFailed, Global};
use std::cmp::Ordering;

/// Why least transit sums were refused: the sum of the least transit sum of a link's tail (`left`) and the link's transit time
/// (`right`) passed, or an allocation failed.
#[derive(Clone, Copy)]
pub enum DistanceFault {
    Passed { link: LinkId, left: Q, right: Q },
    Memory,
}

impl From<AllocError> for DistanceFault {
    ghost use Rattle.std.specs.Prelude.{◌≡◌};
    ghost use Rattle.nf_graph.specs.declared.distance.DistanceFault.TheVariants.{Memory};

    ghost from_gives = { λ _ e. e ≡ Memory };

    fn from(_fault: AllocError) -> DistanceFault {
        DistanceFault::Memory
    }
}

impl<T: Drop> From<AllocFailed<T>> for DistanceFault {
    ghost use Rattle.std.specs.Prelude.{◌≡◌};
    ghost use Rattle.nf_graph.specs.declared.distance.DistanceFault.TheVariants.{Memory};

    ghost from_gives = { λ _ e. e ≡ Memory };

    fn from(_fault: AllocFailed<T>) -> DistanceFault {
        DistanceFault::Memory
    }
}

// This node may be settled with this sum.
#[derive(Clone, Copy)]
struct Step {
    node: NodeId,
    sum: Q,
}

// Returns the sum of a number and the transit time of a link.
fn sum_along(hops: &[Hop], link: LinkId, before: Q) -> Result<Q, DistanceFault>
    requires { link < length hops.now }
    ensures sum { IfOk result (λ sum. IsSumAlong hops.now link before sum) }
    ensures passed { IfErr result (ForPassed (PassesAlong hops.now link before)) }
{
    let hop = &hops[link.index()];
    match before.sum(hop.transit) {
        Ok(sum) => Ok(sum),
        Err(_) => Err(DistanceFault::Passed {
            link,
            left: before,
            right: hop.transit,
        }),
    }
}

// Offers a sum to a node, which keeps the lesser one of this sum and its offer before.
fn offer(offers: &mut [Option<Q>], node: NodeId, sum: Q)
    requires { node < length offers.old }
    ensures { (known : Option ℚ) → slice_get offers.old node ≡ Some known
        → offers.new ≡ slice_set offers.old node (Some (lesser_offer known sum)) }
{
    let place = node.index();
    let least = match offers[place] {
        None => sum,
        Some(known) => known.lesser(sum),
    };
    offers[place] = Some(least);
}

// Offers the sum along a link to its head if the link leaves the node of the step. Fails if this sum passes.
fn offer_along(
    hops: &[Hop],
    link: LinkId,
    step: &Step,
    offers: &mut [Option<Q>],
) -> Result<(), DistanceFault>
    requires link { link < length hops.now }
    requires ends { AreBelow (length offers.old) hops.now }
    ensures offered { IfOk result (λ _. IsOffered hops.now link step.now offers.old offers.new) }
    ensures passed { IfErr result (ForPassed (PassesFrom hops.now step.now)) }
{
    let hop = &hops[link.index()];
    if hop.tail == step.node {
        let sum = sum_along(hops, link, step.sum)?;
        offer(offers, hop.head, sum);
    }
    Ok(())
}

// Settles a node with its sum, and offers the sum along each link that leaves the node to the head. Fails if a sum passes.
fn settle(
    hops: &[Hop],
    step: &Step,
    sums: &mut [Option<Q>],
    offers: &mut [Option<Q>],
) -> Result<(), DistanceFault>
    requires ends { AreBelow (length sums.old) hops.now }
    requires fewer { length hops.now < 2 ^ 32 }
    requires unsettled { IsUnsettled sums.old step.now.node }
    requires offers { AreOffers hops.now sums.old AnyLink offers.old }
    ensures sums { sums.new ≡ slice_set sums.old step.now.node (Some step.now.sum) }
    ensures offers { IfOk result (λ _. AreOffers hops.now sums.new AnyLink offers.new) }
    ensures passed { IfErr result (ForPassed (StopsAt hops.now sums.new)) }
{
    sums[step.node.index()] = Some(step.sum);
    for e in 0..hops.len() {
        offer_along(hops, LinkId(e as u32), step, offers)?;
    }
    Ok(())
}

// Returns the node with the sum that it was offered. Returns None if it is settled, or was offered none.
fn step_to(sums: &[Option<Q>], offers: &[Option<Q>], node: NodeId) -> Option<Step>
    requires node { node < length sums.now }
    requires count { length offers.now ≡ length sums.now }
    ensures { IsStepTo sums.now offers.now node result }
{
    let place = node.index();
    if sums[place].is_some() {
        return None;
    }
    let sum = offers[place]?;
    Some(Step { node, sum })
}

// Returns the offer with the lesser sum.
fn nearer(best: Option<Step>, offered: Option<Step>) -> Option<Step>
    ensures { IsNearer best offered result }
{
    match (best, offered) {
        (None, _) => offered,
        (Some(_), None) => best,
        (Some(a), Some(b)) => match b.sum.cmp(&a.sum) {
            Ordering::Less => offered,
            _ => best,
        },
    }
}

// Returns the least offer made to a node that is not settled. Returns None if there is none.
fn nearest(sums: &[Option<Q>], offers: &[Option<Q>]) -> Option<Step>
    requires count { length offers.now ≡ length sums.now }
    requires fewer { length sums.now < 2 ^ 32 }
    ensures { IsNearest sums.now offers.now result }
{
    let mut best = None;
    for v in 0..sums.len() {
        best = nearer(best, step_to(sums, offers, NodeId(v as u32)));
    }
    best
}

/// Returns for each node the least transit sum over the walks from `from` to it, or None exactly if no walk leads there. No transit
/// time may be negative. Fails with `Passed` exactly if, for some link whose tail's least sum is a fraction that fits, the sum of
/// that least sum and the link's transit time passes, and names such a link. Fails with `Memory` if an allocation fails.
pub fn distances(
    alloc: Global,
    nodes: u32,
    hops: &[Hop],
    from: NodeId,
) -> Result<Vec<Option<Q>>, DistanceFault>
    requires ends { AreBelow nodes hops.now }
    requires fewer { length hops.now < 2 ^ 32 }
    requires from { from < nodes }
    requires transits { NoNegativeTransit hops.now }
    ensures sums { IfOk result (λ sums. AreDistances nodes hops.now from sums.items) }
    ensures fits { OnOk result
        ((link : ℕ) (left right : ℚ) → PassesAt hops.now from link left right → ⊥) }
    ensures passed { IfErr result (ForPassed (PassesAt hops.now from)) }
{
    let mut sums = vec![in alloc; None; nodes as usize]?;
    let mut offers = vec![in alloc; None; nodes as usize]?;
    let start = Step {
        node: from,
        sum: Q::zero(),
    };
    settle(hops, &start, &mut sums, &mut offers)?;
    while let Some(step) = nearest(&sums, &offers) {
        settle(hops, &step, &mut sums, &mut offers)?;
    }
    Ok(sums)
}
