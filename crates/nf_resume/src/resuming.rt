// Resumption of a report: it is checked, and a run from the end of its flow continues to a later horizon.
ghost use Rattle.std.specs.Prelude.{◌≡◌, ◌≢◌, Ok, IfOk, OnOk, IfErr, MatchBool, MatchResult};
ghost use Rattle.nf_rational.specs.Order.{◌≤ℚ◌, ◌<ℚ◌};
ghost use Rattle.nf_frac_def.specs.declared.Part.TheVariants.{Curve as OfCurve};
ghost use Rattle.nf_frac_def.specs.Passing.{passes_Q};
ghost use Rattle.nf_frac_def.specs.Checked.{at_part, Gives};
ghost use Rattle.nf_model.specs.Equilibrium.{Equilibrium};
ghost use Rattle.nf_net_def.specs.Report.{IsWellFormed};
ghost use Rattle.nf_check_def.specs.declared.Answer.TheVariants.{Yes};
ghost use Rattle.nf_check_def.specs.CheckList.{check_list};
ghost use Rattle.nf_thin_def.specs.PhaseRun.{IsShortFlow};
ghost use Rattle.nf_resume_def.specs.Resuming.{restart_list};
ghost use Rattle.nf_resume_def.specs.Meanings.{GoesOnFrom, IsResumedReport};
ghost use Rattle.nf_curve.specs.Flows.{seen_flow};
ghost use Rattle.nf_report_read.specs.Files.{seen_report};
ghost use Rattle.nf_phase_def.specs.Restoring.{EndsAtItsLabels};
ghost use Rattle.nf_phase.specs.Stepping.{Reaches};
ghost use Rattle.nf_phase.specs.Solution.{bounds_of, solution_report};
ghost use Rattle.nf_resume.specs.Faults.{IsCauseAtAnyHorizon, IsResumeFault};
ghost use Rattle.nf_resume.specs.declared.fault.ResumeFault.TheVariants as ResumeFault;

use crate::cutting::cut_flow;
use crate::fault::ResumeFault;
use nf_check::{Answer, check};
use nf_frac::{Halt, Q};
use nf_net::Network;
use nf_phase::{Budgets, Run, Solution};
use nf_report_read::Report;
use std::alloc::Global;

// Returns whether the horizon is before the departure reached.
fn is_earlier(horizon: Q, reached: Q) -> bool
    ensures { MatchBool result (horizon <ℚ reached) (reached ≤ℚ horizon) }
{
    horizon.is_below(reached)
}

// Refuses if the answer of the check is No.
fn unless_no(answer: Answer) -> Result<(), ResumeFault>
    ensures { MatchResult result (λ _. answer ≡ Yes)
        (λ fault. (fault ≡ ResumeFault.No answer) × (answer ≢ Yes)) }
{
    match answer {
        Answer::Yes => Ok(()),
        Answer::No { .. } => Err(ResumeFault::No(answer)),
    }
}

// Refuses if the flow of the report is no equilibrium.
fn check_first(alloc: Global, net: &Network, report: &Report) -> Result<(), ResumeFault>
    requires { IsWellFormed net.now.net (seen_report report.now) }
    ensures yes { OnOk result
        (check_list passes_Q net.now.net (seen_report report.now).flow ≡ Ok Yes) }
    ensures equilibrium { OnOk result (Equilibrium net.now.net (seen_report report.now).flow) }
    ensures cause { IfErr result (IsCauseAtAnyHorizon passes_Q net.now.net (seen_report report.now)) }
{
    match check(alloc, net, &report.flow) {
        Ok(answer) => unless_no(answer),
        Err(halt) => Err(ResumeFault::from(halt)),
    }
}

// Returns the run at the end of a report's flow.
fn restart(alloc: Global, net: &Network, report: &Report) -> Result<Run, Halt<Q>>
    requires formed { IsWellFormed net.now.net (seen_report report.now) }
    requires equilibrium { Equilibrium net.now.net (seen_report report.now).flow }
    ensures list { Gives (λ run. run) (λ q. q) result
        (at_part OfCurve (restart_list passes_Q net.now.net (seen_report report.now))) }
    ensures reaches { IfOk result (Reaches passes_Q net.now.net) }
    ensures time { IfOk result (λ run. run.time ≡ (seen_report report.now).flow.reached) }
    ensures fresh { IfOk result (λ run. run.made ≡ 0) }
{
    // Proof: the network is that of an accepted file.
    net.recall();
    let flow = cut_flow(alloc, net, &report.flow)?;
    let last = report.last.copy(alloc)?;
    let run = Run::restore(alloc, net, flow, last)?;
    Ok(run)
}

/// Resumes a report to a horizon, phase by phase from the departure that its flow has reached. The run ends at the horizon, after as many
/// phases as allowed, or if no phase can be computed. The resulting flow is an equilibrium (a Nash flow over time: Koch and Skutella 2011),
/// and has the report's values up to where the report's flow ends. A phase fails only if an operation exceeds its bound or more patterns
/// than allowed are needed: each phase has a thin flow, by the theorem `no_run_stops_for_no_pattern` of `nf_phase_run_laws`. If the run
/// that wrote the report stopped within a phase, the first phase is the remainder of that phase. The report must be a well-formed one of
/// the network.
///
/// - `Earlier`: exactly if the horizon is before the departure reached. This refusal comes first.
/// - `No`: if the flow is no equilibrium; has the answer of the check.
/// - `Passed`: at the first operation of `resume_list` that exceeds its bound. The operations are those of the check, then with part Curve
///   those of cutting the flow at the departure reached and of the slopes of its last pieces.
/// - `Memory`: if an allocation fails.
pub fn resume(
    alloc: Global,
    net: &Network,
    report: &Report,
    horizon: Q,
    budgets: Budgets,
) -> Result<Solution, ResumeFault>
    requires { IsWellFormed net.now.net (seen_report report.now) }
    ensures resumed { IfOk result
        (λ s. IsResumedReport passes_Q net.now.net (bounds_of horizon budgets)
        (seen_report report.now) s.phases (solution_report horizon s)) }
    ensures equilibrium { IfOk result (λ s. Equilibrium net.now.net (seen_flow s.flow)) }
    ensures goes_on { IfOk result
        (λ s. GoesOnFrom net.now.net (seen_report report.now).flow (seen_flow s.flow)) }
    ensures short { IfOk result (λ s. IsShortFlow net.now.net (seen_flow s.flow)) }
    ensures ends { IfOk result (λ s. EndsAtItsLabels net.now.net (seen_flow s.flow)) }
    ensures formed { IfOk result (λ s. IsWellFormed net.now.net (solution_report horizon s)) }
    ensures not_earlier { OnOk result ((seen_report report.now).flow.reached ≤ℚ horizon) }
    ensures fault { IfErr result
        (IsResumeFault passes_Q net.now.net (seen_report report.now) horizon) }
{
    // Proof: the network is that of an accepted file.
    net.recall();
    let reached = report.flow.reached;
    if is_earlier(horizon, reached) {
        return Err(ResumeFault::Earlier { reached });
    }
    check_first(alloc, net, report)?;
    let run = restart(alloc, net, report)?;
    let solution = run.finish(alloc, net, horizon, budgets)?;
    Ok(solution)
}
