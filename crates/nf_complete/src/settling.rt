// Settling of a thin flow. Cycles are cancelled until the interior links hold none.
ghost use Rattle.std.specs.Prelude.{◌≡◌, ◌<◌, ◌^◌, List, length, IfOk, MatchOption};
ghost use Rattle.nf_rational.specs.Rational.{ℚ};
ghost use Rattle.nf_rational.specs.Operations.{0ℚ};
ghost use Rattle.nf_rational.specs.Order.{◌≤ℚ◌};
ghost use Rattle.nf_frac_def.specs.Passing.{passes_Q};
ghost use Rattle.nf_model.specs.Entries.{Has};
ghost use Rattle.nf_model.specs.Network.{hops as hops_of};
ghost use Rattle.nf_model.specs.ThinFlow.{IsThinFlow};
ghost use Rattle.nf_model.specs.Pattern.{IsForest, IsListedIn, IsSolution};
ghost use Rattle.nf_complete_def.specs.Cancelling.{Cancels};
ghost use Rattle.nf_complete_def.specs.SettledPattern.{IsSettledPattern};
ghost use Rattle.nf_complete_laws.specs.SettleLaws.{AreGoodSets};
ghost use Rattle.nf_complete_cycles.specs.Cycles.{ClosesFirst};
ghost use Rattle.nf_complete_conditions.specs.InteriorFlags.{interior_flags};
ghost use Rattle.nf_complete.specs.FitSets.{AreFitSets};
ghost use Rattle.nf_complete.specs.Settling.{IsThinWithFulls, GivesOneOf, SettlesTo};

use crate::settled::Settled;
use nf_complete_conditions::{fulls, interior, settled_pattern};
use nf_complete_cycles::{Cycle, cancel, first_cycle};
use nf_frac::{Halt, Q};
use nf_graph::LinkSets;
use nf_net::Network;
use std::alloc::{AllocError, Global};

// Returns the next cycle of interior links, or `None` if they are a forest. The interior links before `known` must be a forest.
fn next_cycle(
    alloc: Global,
    net: &Network,
    sets: &LinkSets,
    fulls: &[Option<Q>],
    flows: &[Q],
    known: usize,
) -> Result<Option<Cycle>, AllocError>
    requires sets { length sets.now.active ≡ length net.now.net.links }
    requires fulls { length fulls.now ≡ length net.now.net.links }
    requires flows { length flows.now ≡ length net.now.net.links }
    requires known { IsForest (hops_of net.now.net)
        (λ e. (e < known) × Has (interior_flags sets.now fulls.now flows.now) e) }
    ensures { IfOk result (λ found. MatchOption found
        (IsForest (hops_of net.now.net) (Has (interior_flags sets.now fulls.now flows.now)))
        (λ cycle. ClosesFirst (hops_of net.now.net)
        (interior_flags sets.now fulls.now flows.now) cycle.last cycle.steps.items)) }
{
    let interior = interior(alloc, sets, fulls, flows, net.link_count())?;
    first_cycle(alloc, net.node_count(), net.hops(), &interior, known)
}

// Returns the flows after all cycles are cancelled, one after the other.
fn cancelled(
    alloc: Global,
    net: &Network,
    sets: &LinkSets,
    fulls: &[Option<Q>],
    flows: &[Q],
) -> Result<Vec<Q>, Halt<Q>>
    requires sets { AreGoodSets net.now.net sets.now }
    requires thin { (slopes : List ℚ)
        × IsThinWithFulls passes_Q net.now.net sets.now slopes fulls.now flows.now }
    requires fewer { length fulls.now < 2 ^ 32 }
    ensures { (slopes : List ℚ)
        → IsThinWithFulls passes_Q net.now.net sets.now slopes fulls.now flows.now
        → GivesOneOf (Cancels passes_Q net.now.net sets.now slopes fulls.now flows.now)
        (λ new. new.items) result }
{
    let mut new = flows.to_vec(alloc)?;
    let mut known = 0;
    while let Some(cycle) = next_cycle(alloc, net, sets, fulls, &new, known)? {
        known = cycle.last;
        new = cancel(alloc, &cycle.steps, fulls, &new)?;
    }
    Ok(new)
}

/// Settles a thin flow (Cominetti, Correa and Larré 2015). Returns flows and a listed pattern. The flows and slopes are the only solution
/// of the pattern. A link is interior if it is active, is not resetting, and is neither empty nor full. While interior links hold a cycle,
/// the flows along the next one change until one of its links is empty or full.
///
/// `flows` and `rate`, which is at least 0, are amounts per unit of time. `slopes` holds each label's change per unit of departure time.
/// They must be a thin flow of these sets (`is_thin` tests it). The active links must hold no cycle, and no resetting link may be
/// unbounded.
///
/// The operations are those of `Settles` (nf_complete_def/specs/Cancelling.antt). First the flow that fills each link is computed. Then for
/// each cycle the room of each link and its new flow are computed. Returns `Passed` exactly at the first of them that passes, with the part
/// Verdict. Otherwise fails if an allocation fails.
pub fn settle(
    alloc: Global,
    net: &Network,
    sets: &LinkSets,
    rate: Q,
    flows: &[Q],
    slopes: &[Q],
) -> Result<Settled, Halt<Q>>
    requires sets { AreFitSets net.now.net sets.now }
    requires rate { 0ℚ ≤ℚ rate }
    requires thin { IsThinFlow net.now.net sets.now rate flows.now slopes.now }
    ensures list { SettlesTo passes_Q net.now.net sets.now slopes.now flows.now result }
    ensures pattern { IfOk result
        (λ s. IsSettledPattern net.now.net sets.now s.flows.items slopes.now s.pattern) }
    ensures thin { IfOk result
        (λ s. IsThinFlow net.now.net sets.now rate s.flows.items slopes.now) }
    ensures listed { IfOk result (λ s. IsListedIn net.now.net sets.now s.pattern) }
    ensures solution { IfOk result
        (λ s. IsSolution net.now.net sets.now rate s.pattern s.flows.items slopes.now) }
{
    // Proof: every network is well formed.
    net.recall();
    let fulls = fulls(alloc, net, sets, slopes)?;
    let flows = cancelled(alloc, net, sets, &fulls, flows)?;
    let pattern = settled_pattern(alloc, net, sets, &fulls, &flows, slopes)?;
    Ok(Settled { flows, pattern })
}
