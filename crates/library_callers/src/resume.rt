// A report that continues another.
ghost use Rattle.std.specs.Prelude.{◌≡◌, ℕ, ◌<◌, IfOk};
ghost use Rattle.nf_rational.specs.Rational.{ℚ};
ghost use Rattle.nf_rational.specs.Operations.{0ℚ};
ghost use Rattle.nf_model.specs.Curve.{Within};
ghost use Rattle.nf_model.specs.Equilibrium.{Equilibrium, label};
ghost use Rattle.nf_net_def.specs.Report.{IsWellFormed};
ghost use Rattle.nf_report_read.specs.Files.{seen_report};
ghost use Rattle.nf_phase.specs.Solution.{solution_report};

use nf_frac::Q;
use nf_net::Network;
use nf_phase::{Budgets, Solution};
use nf_report_read::Report;
use nf_resume::{ResumeFault, resume};
use std::alloc::Global;

// Returns the report of a solution.
fn report_to(horizon: Q, solution: Solution) -> Report
    ensures { seen_report result ≡ solution_report horizon solution }
{
    let Solution {
        flow,
        phases: _,
        last,
        stopped,
    } = solution;
    Report {
        horizon,
        flow,
        stopped,
        last,
    }
}

/// Continues a well-formed report to a later horizon. The result is a report that can be continued in turn. Its flow is an equilibrium, and
/// it has the arrivals of the given report, as far as that goes. Refuses as `resume` does.
pub fn continued(
    alloc: Global,
    net: &Network,
    report: &Report,
    horizon: Q,
    budgets: Budgets,
) -> Result<Report, ResumeFault>
    requires { IsWellFormed net.now.net (seen_report report.now) }
    ensures formed { IfOk result (λ r. IsWellFormed net.now.net (seen_report r)) }
    ensures equilibrium { IfOk result (λ r. Equilibrium net.now.net (seen_report r).flow) }
    ensures arrivals { IfOk result (λ r. (v : ℕ) (departure : ℚ) → v < net.now.net.nodes
        → Within 0ℚ (seen_report report.now).flow.reached departure
        → label (seen_report r).flow v departure ≡ label (seen_report report.now).flow v departure) }
{
    match resume(alloc, net, report, horizon, budgets) {
        Ok(solution) => Ok(report_to(horizon, solution)),
        Err(fault) => Err(fault),
    }
}
