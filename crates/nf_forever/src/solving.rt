// Runs without a horizon, phase by phase.
ghost use Rattle.std.specs.Prelude.{◌≡◌, ◌↔◌, None, IfOk, IfSome, IsSome};
ghost use Rattle.nf_rational.specs.Rational.{ℚ};
ghost use Rattle.nf_rational.specs.Operations.{0ℚ};
ghost use Rattle.nf_rational.specs.Order.{◌≤ℚ◌};
ghost use Rattle.nf_frac_def.specs.Passing.{passes_Q};
ghost use Rattle.nf_model.specs.Equilibrium.{Equilibrium};
ghost use Rattle.nf_thin_def.specs.PhaseRun.{IsStart};
ghost use Rattle.nf_curve.specs.Flows.{seen_flow};
ghost use Rattle.nf_phase.specs.Stepping.{tail_by};
ghost use Rattle.nf_forever_def.specs.ForeverRun.{Stops, NeverEnds, IsForeverRun, forever_of, IsForever};
ghost use Rattle.nf_forever_def.specs.Extended.{flow_until};
ghost use Rattle.nf_forever_def.specs.ForeverText.{HasForm};
ghost use Rattle.nf_forever_laws.specs.TailGrowth.{TailGrows};
ghost use Rattle.nf_forever.specs.Seen.{tail_in, forever_in};
ghost use Rattle.nf_forever.specs.Ends.{end_in};

use crate::forever::{Forever, Tail};
use nf_curve::Stop;
use nf_net::Network;
use nf_phase::{Budgets, Run, StepFault, ThinFlow, stop_by};
use std::alloc::{AllocError, Global};

// The end of a run: a stop, or a phase that never ends, with its thin flow.
#[derive(Drop)]
enum End {
    Stops(Stop),
    NeverEnds(ThinFlow),
}

// Extends the run until it ends, by phases of greatest length. The budget of phases ends the run even if the next phase would never end.
fn go(run: &mut Run, alloc: Global, net: &Network, budgets: Budgets) -> Result<End, AllocError>
    requires { IsStart net.now.net run.old }
    ensures { IfOk result (λ end.
        IsForeverRun passes_Q net.now.net budgets.phases budgets.patterns run.new (end_in end)) }
{
    for _ in 0..budgets.phases {
        match run.step_to_end(alloc, net, budgets.patterns) {
            Ok(None) => {}
            Ok(Some(thin)) => return Ok(End::NeverEnds(thin)),
            Err(fault) => {
                let stop = stop_by(run.phases() + 1, fault)?;
                return Ok(End::Stops(stop));
            }
        }
    }
    Ok(End::Stops(Stop::Phases { made: run.phases() }))
}

// Returns the result of a stopped run.
fn stopped(alloc: Global, run: &Run, stop: Stop) -> Result<Forever, AllocError>
    ensures { IfOk result (λ f. forever_in f ≡ forever_of run.now (Stops stop)) }
{
    let flow = run.flow(alloc)?;
    let last = run.last().copy(alloc)?;
    Ok(Forever {
        flow,
        phases: run.phases(),
        last,
        stopped: Some(stop),
        tail: None,
    })
}

// Returns the result of a run whose next phase never ends.
fn endless(alloc: Global, run: &Run, thin: ThinFlow) -> Result<Forever, AllocError>
    ensures { IfOk result
        (λ f. forever_in f ≡ forever_of run.now (NeverEnds thin.pattern (tail_by thin))) }
{
    let flow = run.flow(alloc)?;
    let phases = run.phases();
    let ThinFlow {
        flows,
        slopes,
        pattern,
    } = thin;
    Ok(Forever {
        flow,
        phases,
        last: pattern,
        stopped: None,
        tail: Some(Tail { slopes, flows }),
    })
}

// Returns the result of a run with this end.
fn outcome(alloc: Global, run: &Run, end: End) -> Result<Forever, AllocError>
    ensures { IfOk result (λ f. forever_in f ≡ forever_of run.now (end_in end)) }
{
    match end {
        End::Stops(stop) => stopped(alloc, run, stop),
        End::NeverEnds(thin) => endless(alloc, run, thin),
    }
}

/// Solves a network without a horizon. Each phase has the first accepted pattern and its extension length, from departure 0 on. The run
/// ends with a phase that never ends, with the budget of phases, or before a phase that fails. The flow up to there is an equilibrium (a
/// Nash flow over time: Koch and Skutella 2011). A phase that never ends is the tail, and isn't counted as a phase: the budget is tested
/// before it. The flow that is extended by the tail is an equilibrium up to every departure.
///
/// `grows`: labels then grow at the slopes of the tail. Travel times stay constant exactly if the capacity of each static cut is at least
/// the last supply rate. Otherwise a unit of departure adds to them that rate over the least capacity, minus 1 (Cominetti, Correa, Olver
/// 2017).
///
/// A phase fails only if an operation exceeds its bound, or if more patterns than allowed are needed: each phase has a thin flow, by the
/// theorem `no_run_stops_for_no_pattern` of `nf_phase_run_laws`. Returns `AllocError` only if an allocation fails.
pub fn solve_forever(alloc: Global, net: &Network, budgets: Budgets) -> Result<Forever, AllocError>
    ensures run { IfOk result
        (λ f. IsForever passes_Q net.now.net budgets.phases budgets.patterns (forever_in f)) }
    ensures form { IfOk result (λ f. HasForm net.now.net (forever_in f)) }
    ensures equilibrium { IfOk result (λ f. Equilibrium net.now.net (seen_flow f.flow)) }
    ensures tail { IfOk result (λ f. IfSome f.tail
        (λ tail. (until : ℚ) → 0ℚ ≤ℚ until
        → Equilibrium net.now.net (flow_until net.now.net (seen_flow f.flow) (tail_in tail) until))) }
    ensures grows { IfOk result
        (λ f. IfSome f.tail (λ tail. TailGrows net.now.net (seen_flow f.flow) (tail_in tail))) }
    ensures stop { IfOk result (λ f. IsSome f.tail ↔ (f.stopped ≡ None)) }
{
    // Proof: the network is that of an accepted file.
    net.recall();
    let mut run = Run::start(alloc, net)?;
    let end = go(&mut run, alloc, net, budgets)?;
    outcome(alloc, &run, end)
}
