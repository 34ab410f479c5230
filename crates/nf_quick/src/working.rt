// The computation of a quickest flow.
ghost use Rattle.std.specs.Prelude.{◌≡◌, ◌≤◌, IfOk};
ghost use Rattle.nf_rational.specs.Rational.{ℚ};
ghost use Rattle.nf_rational.specs.Operations.{0ℚ};
ghost use Rattle.nf_rational.specs.Order.{◌≤ℚ◌, ◌<ℚ◌};
ghost use Rattle.nf_frac_def.specs.declared.Part.TheVariants as Part;
ghost use Rattle.nf_frac_def.specs.Passing.{passes_Q};
ghost use Rattle.nf_frac_def.specs.Checked.{at_part, Gives};
ghost use Rattle.nf_model.specs.Network.{IsNetwork};
ghost use Rattle.nf_quick_def.specs.Steps.{IsLimited};
ghost use Rattle.nf_quick_def.specs.Flows.{IsSound};
ghost use Rattle.nf_quick_def.specs.Quick.{nothing as nothing_in, finish_list};
ghost use Rattle.nf_quick_def.specs.Answers.{IsQuickFlow};
ghost use Rattle.nf_quick.specs.Answered.{IsAnswered, IsInOrder};

use crate::fault::QuickFault;
use crate::pushing::push_up_to;
use crate::quick::Quick;
use nf_frac::{Halt, Q};
use nf_net::{LinkId, Network};
use nf_quick_times::{node_times, value_of};
use nf_quick_walks::{unbounded_walk, walks_off};
use nf_residual::Residual;
use std::alloc::{AllocError, Global};

// Returns the result for the amount 0: time 0, no walks, a cut of zeros.
fn nothing(alloc: Global, net: &Network) -> Result<Quick, AllocError>
    ensures { IfOk result (λ quick. quick ≡ nothing_in net.now.net) }
{
    let cut = vec![in alloc; Q::zero(); net.node_count() as usize]?;
    Ok(Quick {
        time: Q::zero(),
        walks: Vec::new(alloc),
        cut,
        value: Q::zero(),
    })
}

// Returns the flow of each link, a rate.
fn flows_of(alloc: Global, net: &Network, flow: &Residual) -> Result<Vec<Q>, AllocError>
    requires { IsSound net.now.net flow.now }
    ensures { IfOk result (λ flows. flows.items ≡ flow.now) }
{
    let mut flows = Vec::with_capacity(alloc, net.link_count() as usize)?;
    for number in 0..net.link_count() {
        flows.push(flow.flow(LinkId(number)))?;
    }
    Ok(flows)
}

// Returns the result for a flow and its time: the walks of the flow, the cut over time and its value.
#[tactic(auto, unfolding(nf_quick_def::specs::Quick::finish_list))]
fn finish(alloc: Global, net: &Network, flow: &Residual, time: Q) -> Result<Quick, Halt<Q>>
    requires { IsSound net.now.net flow.now }
    ensures { (amount : ℚ)
        → Gives (λ quick. quick) (λ q. q) result
        (at_part Part.Quick (finish_list passes_Q net.now.net amount flow.now time)) }
{
    let flows = flows_of(alloc, net, flow)?;
    let walks = walks_off(alloc, net, flows)?;
    let from_source = flow.distances(alloc, net, net.source())?;
    let from_sink = flow.distances(alloc, net, net.sink())?;
    let cut = node_times(alloc, time, &from_source, &from_sink)?;
    let value = value_of(net, &cut)?;
    Ok(Quick {
        time,
        walks,
        cut,
        value,
    })
}

// Returns the result of `quickest_list`, after testing whether a walk of unbounded links delivers any amount at once. The pushes have a
// time, since a walk leads from source to sink and is pushed.
fn work_out(alloc: Global, net: &Network, amount: Q, augments: u64) -> Result<Quick, QuickFault>
    requires network { IsNetwork net.now.net }
    requires amount { 0ℚ ≤ℚ amount }
    ensures { IsAnswered passes_Q net.now.net amount augments result }
{
    if amount.is_at_most(Q::zero()) {
        return Ok(nothing(alloc, net)?);
    }
    if let Some(links) = unbounded_walk(alloc, net)? {
        return Err(QuickFault::Unbounded { links });
    }
    let standing = push_up_to(alloc, net, amount, augments)?;
    let time = standing.time.unwrap();
    let quick = finish(alloc, net, &standing.flow, time)?;
    Ok(quick)
}

/// Returns the quickest flow of an amount of at least 0 from source to sink. Walks fed at their rates deliver the amount by the time. No
/// feasible flow over time delivers it earlier. The value of the cut over time is the amount. For the amount 0 the time is 0, there are no
/// walks, and the cut is 0 everywhere.
///
/// For an amount above 0, shortest residual walks are pushed with their whole room (after Ford and Fulkerson 1958). The pushes end if no
/// walk is left or the next is at least as long as the time. `augments` is the greatest number of pushes, at least 1.
///
/// - `Unbounded`: exactly if the amount is above 0 and a walk of unbounded links leads from source to sink; has such a walk.
/// - `Budget`: exactly if `augments` walks were pushed and the next is shorter than the time; has the pushed walks.
/// - `Passed`: at the first operation that exceeds its bound, with part Quick: of the pushes, then of the walks, of the distances from
///   source and sink, of the cut, and of its value.
/// - `Memory`: if an allocation fails.
pub fn quickest(alloc: Global, net: &Network, amount: Q, augments: u64) -> Result<Quick, QuickFault>
    requires amount { 0ℚ ≤ℚ amount }
    requires augments { 1 ≤ augments }
    ensures answered { IsAnswered passes_Q net.now.net amount augments result }
    ensures quickest { IfOk result (IsQuickFlow net.now.net amount) }
    ensures pushes { IsInOrder net.now.net amount augments result }
{
    // Proof: the network is that of an accepted file.
    net.recall();
    work_out(alloc, net, amount, augments)
}
