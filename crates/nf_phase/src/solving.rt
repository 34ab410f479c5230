// Runs to a horizon, phase by phase.
ghost use Rattle.std.specs.Prelude.{◌≡◌, IfOk, MatchBool};
ghost use Rattle.nf_rational.specs.Operations.{0ℚ};
ghost use Rattle.nf_rational.specs.Order.{◌≤ℚ◌, ◌<ℚ◌, lt_ℚ};
ghost use Rattle.nf_frac_def.specs.Passing.{passes_Q};
ghost use Rattle.nf_net_def.specs.WellNamed.{IsNamed};
ghost use Rattle.nf_thin_def.specs.PhaseRun.{flow_of};
ghost use Rattle.nf_phase_def.specs.Open.{RunsOn};
ghost use Rattle.nf_curve.specs.Flows.{seen_flow as flow_in};
ghost use Rattle.nf_phase.specs.Stepping.{Reaches};
ghost use Rattle.nf_phase.specs.Solution.{IsRunSolution, IsFinished, bounds_of, solution_report, stop_after};

use crate::run::Run;
use crate::solution::{Budgets, Solution};
use crate::stops::stop_by;
use nf_curve::Stop;
use nf_frac::Q;
use nf_net::Network;
use nf_phase_curves::finish_flow;
use std::alloc::{AllocError, Global};

impl Run {
    // Returns whether the run has reached the horizon.
    pub(crate) fn is_at(&self, horizon: Q) -> bool
        ensures { MatchBool result (horizon ≤ℚ self.now.time) (self.now.time <ℚ horizon) }
    {
        !self.reached.is_below(horizon)
    }

    // Returns why the run stops after as many phases as allowed, or None if it has reached the horizon.
    fn stop_after_all(&self, horizon: Q) -> Option<Stop>
        ensures { result ≡ stop_after (lt_ℚ self.now.time horizon) self.now.made }
    {
        if self.reached.is_below(horizon) {
            Some(Stop::Phases { made: self.made })
        } else {
            None
        }
    }

    // Extends the run until it ends. Returns why it stops, or None if it reaches the horizon.
    fn go(
        &mut self,
        alloc: Global,
        net: &Network,
        horizon: Q,
        budgets: Budgets,
    ) -> Result<Option<Stop>, AllocError>
        requires reaches { Reaches passes_Q net.now.net self.old }
        requires named { IsNamed net.now }
        requires fresh { self.old.made ≡ 0 }
        requires horizon { self.old.time ≤ℚ horizon }
        ensures { IfOk result
            (RunsOn passes_Q net.now.net (bounds_of horizon budgets) self.old self.new) }
    {
        for _ in 0..budgets.phases {
            if self.is_at(horizon) {
                return Ok(None);
            }
            if let Err(fault) = self.step(alloc, net, horizon, budgets.patterns) {
                return Ok(Some(stop_by(self.made + 1, fault)?));
            }
        }
        Ok(self.stop_after_all(horizon))
    }

    // Returns the result of the run.
    fn solution(self, alloc: Global, stopped: Option<Stop>) -> Result<Solution, AllocError>
        ensures flow { IfOk result (λ s. flow_in s.flow ≡ flow_of self) }
        ensures phases { IfOk result (λ s. s.phases ≡ self.made) }
        ensures last { IfOk result (λ s. s.last ≡ self.last) }
        ensures stopped { IfOk result (λ s. s.stopped ≡ stopped) }
    {
        let Run {
            reached,
            labels: _,
            label_curves,
            link_curves,
            made,
            last,
        } = self;
        let flow = finish_flow(alloc, reached, label_curves, link_curves)?;
        Ok(Solution {
            flow,
            phases: made,
            last,
            stopped,
        })
    }

    /// Extends a run phase by phase, each phase by its first accepted pattern. The run ends at the horizon, after as many phases as
    /// allowed, or if no phase can be computed. No phase may have been added since departure 0 or since the run was restored. The horizon
    /// is a time, not before the departure reached. The resulting flow is an equilibrium. A phase fails only if an operation exceeds its
    /// bound or more patterns than allowed are needed: each phase has a thin flow (`nf_phase_run_laws`). Fails if an allocation fails.
    pub fn finish(
        self,
        alloc: Global,
        net: &Network,
        horizon: Q,
        budgets: Budgets,
    ) -> Result<Solution, AllocError>
        requires reaches { Reaches passes_Q net.now.net self }
        requires fresh { self.made ≡ 0 }
        requires horizon { self.time ≤ℚ horizon }
        ensures finished { IfOk result (λ s. IsFinished net.now.net
            (bounds_of horizon budgets) self s.phases (solution_report horizon s)) }
    {
        // Proof: the network is that of an accepted file.
        net.recall();
        let mut run = self;
        let stopped = run.go(alloc, net, horizon, budgets)?;
        run.solution(alloc, stopped)
    }
}

/// Solves a network phase by phase from departure 0, each phase by its first accepted pattern. The run ends at the horizon, after as many
/// phases as allowed, or if no phase can be computed. The resulting flow is an equilibrium (a Nash flow over time: Koch and Skutella 2011).
/// A phase fails only if an operation exceeds its bound or more patterns than allowed are needed: each phase has a thin flow, by the
/// theorem `no_run_stops_for_no_pattern` of `nf_phase_run_laws`. The horizon is a time of at least 0. Fails if an allocation fails.
pub fn solve(
    alloc: Global,
    net: &Network,
    horizon: Q,
    budgets: Budgets,
) -> Result<Solution, AllocError>
    requires { 0ℚ ≤ℚ horizon }
    ensures solution { IfOk result
        (λ s. IsRunSolution net.now.net (bounds_of horizon budgets) s.phases (solution_report horizon s)) }
{
    // Proof: the network is that of an accepted file.
    net.recall();
    let run = Run::start(alloc, net)?;
    run.finish(alloc, net, horizon, budgets)
}
