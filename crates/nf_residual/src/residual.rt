// A static flow and its residual walks.
ghost use Rattle.std.specs.Prelude.{◌≡◌, ◌<◌, length, replicate, Some, IfOk, OnErr, OnOk};
ghost use Rattle.std.specs.List.{AllByRecursion};
ghost use Rattle.nf_rational.specs.Operations.{0ℚ};
ghost use Rattle.nf_rational.specs.Order.{◌≤ℚ◌, ◌<ℚ◌};
ghost use Rattle.nf_frac_def.specs.declared.Part.TheVariants.{Quick};
ghost use Rattle.nf_frac_def.specs.Passing.{passes_Q};
ghost use Rattle.nf_frac_def.specs.Checked.{at_part, fold_checked, seen_at, Gives};
ghost use Rattle.nf_model.specs.Entries.{number_at};
ghost use Rattle.nf_quick_def.specs.Order.{Reach as SeenReach};
ghost use Rattle.nf_quick_def.specs.Rounds.{with_room as with_room_by, shortest_list, distances_list};
ghost use Rattle.nf_quick_def.specs.Pushes.{push_step, push_list};
ghost use Rattle.nf_quick_def.specs.Flows.{IsSound};
ghost use Rattle.nf_quick_def.specs.Steps.{IsResidualWalk, IsLimited};
ghost use Rattle.nf_quick_def.specs.Answers.{IsShortestWalk, IsShortest, AreLeastLengths};

use crate::flows::put_flow;
use crate::reaches::Reach;
use crate::room::room_of;
use crate::rounds::reaches;
use crate::step::{Step, Walk, changed};
use nf_frac::{Halt, PassedAt, Q};
use nf_graph::{LinkId, NodeId};
use nf_net::Network;
use std::alloc::{AllocError, Global};
use std::marker::Model;

/// A static flow from source to sink, one rate for each link. `Residual` is sound for a network under three conditions. It is a static
/// flow of the network between 0 and each capacity. No closed residual walk has negative length. Nothing flows into the source or
/// out of the sink.
#[derive(Drop)]
pub struct Residual {
    flows: Vec<Q>,
    next: Vec<Q>,
}

impl Model for Residual {
    ghost use Rattle.std.specs.Prelude.{◌≡◌, List, length};
    ghost use Rattle.nf_rational.specs.Rational.{ℚ};

    ghost Value = { List ℚ };

    ghost view = { λ r. r.flows.items };

    ghost invariant = { λ r. length r.next.items ≡ length r.flows.items };
}

fn at(flows: &Vec<Q>, link: LinkId) -> Q
    requires { link < length flows.now.items }
    ensures { result ≡ number_at flows.now.items link }
{
    flows[link.index()]
}

// Pushes `amount`, a rate, along the steps: a forward step adds it to the flow of its link, a backward step subtracts it. Stops at the
// first operation that exceeds its bound.
fn move_along(flows: &mut Vec<Q>, steps: &[Step], amount: Q) -> Result<(), PassedAt<Q>>
    requires { AllByRecursion (λ step. step.link < length flows.old.items) steps.now }
    ensures moved { seen_at (λ _. flows.new.items) (λ q. q) result
        ≡ at_part Quick (fold_checked (push_step passes_Q amount) flows.old.items steps.now) }
    ensures count { length flows.new.items ≡ length flows.old.items }
{
    for step in steps {
        let step: Step = *step;
        let before = at(flows, step.link);
        let after = changed(step.forward, before, amount)?;
        put_flow(flows, step.link, after);
    }
    Ok(())
}

// Returns the walk along a path from source to sink with its room, or None if there is no path. A link of the path has a capacity.
fn with_room(net: &Network, flows: &[Q], way: Option<Reach>) -> Result<Option<Walk>, PassedAt<Q>>
    requires walk { (reach : SeenReach) → way ≡ Some reach
        → IsResidualWalk net.now.net flows.now reach.steps net.now.net.source net.now.net.sink }
    requires limited { IsLimited net.now.net }
    requires flows { length flows.now ≡ length net.now.net.links }
    ensures { result ≡ at_part Quick (with_room_by passes_Q net.now.net flows.now way) }
{
    match way {
        None => Ok(None),
        Some(way) => {
            let room = room_of(net, flows, &way.steps)?;
            Ok(Some(Walk {
                steps: way.steps,
                length: way.distance,
                room: room.unwrap(),
            }))
        }
    }
}

impl Residual {
    /// Returns the flow 0, which is sound.
    pub fn new(alloc: Global, net: &Network) -> Result<Residual, AllocError>
        ensures empty { IfOk result (λ r. r ≡ replicate (length net.now.net.links) 0ℚ) }
        ensures sound { IfOk result (λ r. IsSound net.now.net r) }
    {
        net.recall();
        let count = net.link_count() as usize;
        let flows = vec![in alloc; Q::zero(); count]?;
        let next = vec![in alloc; Q::zero(); count]?;
        Ok(Residual { flows, next })
    }

    /// Returns the flow on a link, a rate. Allocates nothing.
    pub fn flow(&self, link: LinkId) -> Q
        requires { link < length self.now }
        ensures { result ≡ number_at self.now link }
    {
        self.flows[link.index()]
    }

    /// Returns the first residual walk from source to sink, or None exactly if no residual walk leads to the sink. Walks are ordered by
    /// length, then by number of steps, then lexicographically by their steps. Steps are ordered by link number, a forward step before the
    /// backward one. Each walk from source to sink must have a link with a capacity. Refuses with Passed, of the part Quick, at the first
    /// operation that exceeds its bound, in the Bellman-Ford rounds or in the room of the walk.
    pub fn shortest(&self, alloc: Global, net: &Network) -> Result<Option<Walk>, Halt<Q>>
        requires sound { IsSound net.now.net self.now }
        requires limited { IsLimited net.now.net }
        ensures list { Gives (λ found. found) (λ q. q) result
            (at_part Quick (shortest_list passes_Q net.now.net self.now)) }
        ensures first { IfOk result (λ found. IsShortest net.now.net self.now found) }
    {
        net.recall();
        let flows = self.flows.as_slice();
        let known = reaches(alloc, net, flows, net.source())?;
        let way = known.way_to(alloc, net.sink())?;
        let walk = with_room(net, flows, way)?;
        Ok(walk)
    }

    /// Returns for each node the least length, a time, of the residual walks to it from the node `from`, or None exactly if there is none.
    /// Refuses with Passed, of the part Quick, at the first operation of the Bellman-Ford rounds that exceeds its bound.
    pub fn distances(
        &self,
        alloc: Global,
        net: &Network,
        from: NodeId,
    ) -> Result<Vec<Option<Q>>, Halt<Q>>
        requires sound { IsSound net.now.net self.now }
        requires from { from < net.now.net.nodes }
        ensures list { Gives (λ v. v.items) (λ q. q) result
            (at_part Quick (distances_list passes_Q net.now.net self.now from)) }
        ensures least { IfOk result (λ v. AreLeastLengths net.now.net self.now from v.items) }
    {
        net.recall();
        let flows = self.flows.as_slice();
        let known = reaches(alloc, net, flows, from)?;
        let distances = known.distances(alloc)?;
        Ok(distances)
    }

    /// Pushes `amount`, a rate, along a shortest residual walk. The amount is above 0 and at most the room of the walk. The flow stays
    /// sound. Refuses with Passed, of the part Quick, if an operation exceeds its bound; the flow is then unchanged. Allocates nothing.
    #[tactic(auto, unfolding(nf_quick_def::specs::Pushes::push_list))]
    pub fn push(&mut self, net: &Network, walk: &Walk, amount: Q) -> Result<(), PassedAt<Q>>
        requires sound { IsSound net.now.net self.old }
        requires walk { IsShortestWalk net.now.net self.old walk.now }
        requires some { 0ℚ <ℚ amount }
        requires room { amount ≤ℚ walk.now.room }
        ensures list { seen_at (λ _. self.new) (λ q. q) result
            ≡ at_part Quick (push_list passes_Q walk.now.steps amount self.old) }
        ensures as_it_was { OnErr result (self.new ≡ self.old) }
        ensures sound { OnOk result (IsSound net.now.net self.new) }
    {
        net.recall();
        self.next.copy_from_slice(&self.flows);
        move_along(&mut self.next, &walk.steps, amount)?;
        std::mem::swap(&mut self.flows, &mut self.next);
        Ok(())
    }
}
