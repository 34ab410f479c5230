// Shortest residual walks, each pushed with its whole room.
ghost use Rattle.std.specs.Prelude.{◌≡◌, IfOk, IfSome, OnErr};
ghost use Rattle.nf_rational.specs.Rational.{ℚ};
ghost use Rattle.nf_rational.specs.Operations.{0ℚ};
ghost use Rattle.nf_rational.specs.Order.{◌≤ℚ◌, ◌<ℚ◌};
ghost use Rattle.nf_frac_def.specs.declared.Op.TheVariants.{Sum};
ghost use Rattle.nf_frac_def.specs.declared.Part.TheVariants.{Quick};
ghost use Rattle.nf_frac_def.specs.Passing.{passes_Q};
ghost use Rattle.nf_frac_def.specs.Checked.{at_part, checked_at, Gives};
ghost use Rattle.nf_model.specs.Network.{Network as SeenNetwork};
ghost use Rattle.nf_quick_def.specs.Steps.{IsLimited};
ghost use Rattle.nf_quick_def.specs.Flows.{IsSound};
ghost use Rattle.nf_quick_def.specs.Answers.{IsShortestWalk};
ghost use Rattle.nf_quick_walks.specs.Refused.{DiffersByFlow};
ghost use Rattle.nf_quick_def.specs.Pushes.{time_list};
ghost use Rattle.nf_quick_def.specs.Quick.{is_early as is_early_by, start_of, next_of, next_list, push_on as push_on_by};

use crate::rated::Augment;
use nf_frac::{Halt, Part, PassedAt, Q};
use nf_net::Network;
use nf_residual::{Residual, Walk};
use std::alloc::{AllocError, Global};
use std::marker::Model;

// The totals of the pushed walks: the sum of their rates, the sum of rate times length, and the time that they need for the amount.
#[derive(Drop)]
struct Times {
    rate: Q,
    cost: Q,
    time: Q,
}

impl Model for Times {
    ghost use Rattle.nf_quick_def.specs.Pushes.{Times as SeenTimes};
    ghost use Rattle.nf_quick_walks.specs.Codes.{coded_times};

    ghost Value = { SeenTimes };

    ghost coded = { coded_times };

    ghost view = { λ t. record { rate = t.rate; cost = t.cost; time = t.time } };
}

fn sum(left: Q, right: Q) -> Result<Q, PassedAt<Q>>
    ensures { result ≡ checked_at passes_Q Quick Sum left right }
{
    Ok(nf_frac::at!(Part::Quick, left.sum(right)))
}

// Returns the totals after one more walk of this rate and length. Refuses exactly if an operation exceeds its bound.
#[tactic(auto, unfolding(nf_quick_def::specs::Pushes::time_list))]
fn time_with(
    amount: Q,
    rate_so_far: Q,
    cost_so_far: Q,
    rate: Q,
    length: Q,
) -> Result<Times, PassedAt<Q>>
    requires so_far { 0ℚ ≤ℚ rate_so_far }
    requires some { 0ℚ <ℚ rate }
    ensures list { result
        ≡ at_part Quick (time_list passes_Q amount rate_so_far cost_so_far rate length) }
    ensures rate { IfOk result (λ times. 0ℚ ≤ℚ times.rate) }
{
    let product = nf_frac::at!(Part::Quick, rate.product(length));
    let cost = nf_frac::at!(Part::Quick, cost_so_far.sum(product));
    let all = sum(rate_so_far, rate)?;
    let total = nf_frac::at!(Part::Quick, amount.sum(cost));
    let time = nf_frac::at!(Part::Quick, total.quotient(all));
    Ok(Times {
        rate: all,
        cost,
        time,
    })
}

// Returns whether a walk of this length is shorter than the time. Before the first push there is no time, and each walk counts as shorter.
fn is_early(length: Q, time: Option<Q>) -> bool
    ensures { result ≡ is_early_by length time }
{
    match time {
        None => true,
        Some(time) => length.is_below(time),
    }
}

/// The state of the pushes: the flow, the pushed walks, and their totals. `rate` is the sum of their rates, `cost` the sum of rate times
/// length. `time` is the time that they need for the amount, or None before the first push.
#[derive(Drop)]
pub struct QuickStanding {
    pub flow: Residual,
    pub pushed: Vec<Augment>,
    pub rate: Q,
    pub cost: Q,
    pub time: Option<Q>,
}

impl Model for QuickStanding {
    ghost use Rattle.nf_quick_def.specs.Quick.{QuickStanding as SeenStanding};
    ghost use Rattle.nf_quick_walks.specs.Codes.{coded_standing};

    ghost Value = { SeenStanding };

    ghost coded = { coded_standing };

    ghost view = { λ s. record { flows = s.flow; pushed = s.pushed.items; rate = s.rate; cost = s.cost; time = s.time } };
}

impl QuickStanding {
    /// Returns the state before the first push. Fails if an allocation fails.
    pub fn start(alloc: Global, net: &Network) -> Result<QuickStanding, AllocError>
        ensures start { IfOk result (λ s. s ≡ start_of net.now.net) }
        ensures sound { IfOk result (λ s. IsSound net.now.net s.flows) }
    {
        let flow = Residual::new(alloc, net)?;
        Ok(QuickStanding {
            flow,
            pushed: Vec::new(alloc),
            rate: Q::zero(),
            cost: Q::zero(),
            time: None,
        })
    }

    // Returns the walk if it is shorter than the time, and None otherwise.
    fn if_early(&self, found: Option<Walk>) -> Option<Walk>
        ensures { (net : SeenNetwork) (amount : ℚ)
            → result ≡ next_of passes_Q net amount self.now found }
    {
        match found {
            None => None,
            Some(walk) => {
                if is_early(walk.length, self.time) {
                    Some(walk)
                } else {
                    None
                }
            }
        }
    }

    /// Returns the walk to push next. Returns None if no residual walk is left, or the shortest is at least as long as the time. Refuses
    /// with Passed, of the part Quick, at the first operation of `next_list` that exceeds its bound. Fails with `Memory` if an allocation
    /// fails.
    pub fn next(&self, alloc: Global, net: &Network) -> Result<Option<Walk>, Halt<Q>>
        requires sound { IsSound net.now.net self.now.flows }
        requires limited { IsLimited net.now.net }
        ensures list { (amount : ℚ)
            → Gives (λ found. found) (λ q. q) result
            (at_part Quick (next_list passes_Q net.now.net amount self.now)) }
        ensures shortest { IfOk result
            (λ found. IfSome found (IsShortestWalk net.now.net self.now.flows)) }
    {
        let found = self.flow.shortest(alloc, net)?;
        Ok(self.if_early(found))
    }

    /// Pushes a walk with its whole room, adds the room to the rate, and computes the time anew. Refuses with Passed, of the part Quick, at
    /// the first operation that exceeds its bound: of the push, then of the time. Fails with `Memory` if an allocation fails. After a
    /// refusal only the flow may differ, and it is sound.
    pub fn push_on(&mut self, net: &Network, amount: Q, walk: Walk) -> Result<(), Halt<Q>>
        requires sound { IsSound net.now.net self.old.flows }
        requires walk { IsShortestWalk net.now.net self.old.flows walk }
        requires rate { 0ℚ ≤ℚ self.old.rate }
        ensures list { Gives (λ _. self.new) (λ q. q) result
            (at_part Quick (push_on_by passes_Q net.now.net amount self.old walk)) }
        ensures sound { IsSound net.now.net self.new.flows }
        ensures rate { 0ℚ ≤ℚ self.new.rate }
        ensures refused { OnErr result (DiffersByFlow self.old self.new) }
    {
        let room = walk.room;
        self.flow.push(net, &walk, room)?;
        let times = time_with(amount, self.rate, self.cost, room, walk.length)?;
        self.pushed.push(Augment { walk, amount: room })?;
        self.rate = times.rate;
        self.cost = times.cost;
        self.time = Some(times.time);
        Ok(())
    }
}
