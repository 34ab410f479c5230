// Rule C1: each inflow is 0 at time 0 and never falls.
ghost use Rattle.std.specs.Prelude.{◌≡◌, ◌<◌, length, option_map};
ghost use Rattle.nf_frac_def.specs.Passing.{passes_Q};
ghost use Rattle.nf_frac_def.specs.Checked.{each};
ghost use Rattle.nf_model.specs.Network.{Network as SeenNetwork};
ghost use Rattle.nf_check_def.specs.PointRules.{inflow_fault as fault_by};
ghost use Rattle.nf_check_def.specs.Rules.{numbers_of_links};
ghost use Rattle.nf_check_def.specs.CheckList.{inflow_rule};
ghost use Rattle.nf_curve.specs.Differences.{difference_of};
ghost use Rattle.nf_curve.specs.Flows.{seen_flow};
ghost use Rattle.nf_check_rules.specs.Points.{first_fall as first_fall_by};
ghost use Rattle.nf_check_rules.specs.Trials.{Tries, done};

use crate::ended::{Ended, unless};
use crate::subject::Subject;
use crate::worked::trace_at;
use nf_check_def::CheckRule;
use nf_curve::{Curve, Difference, Flow};
use nf_frac::Q;
use nf_graph::LinkId;
use nf_net::Network;

// Returns the first point whose value exceeds the next value, with both values.
fn first_fall(curve: &Curve) -> Option<Difference>
    ensures { option_map difference_of result ≡ first_fall_by curve.now.points }
{
    for i in 1..curve.len() {
        let (time, value) = curve.point(i - 1);
        let (_, next) = curve.point(i);
        if next.is_below(value) {
            return Some(Difference {
                time,
                left: value,
                right: next,
            });
        }
    }
    None
}

// Returns the value at time 0 and 0, if they differ. Otherwise returns the first fall.
fn inflow_fault(curve: &Curve) -> Option<Difference>
    ensures { option_map difference_of result ≡ fault_by curve.now.points }
{
    // Proof: there is a point.
    curve.recall();
    let (_, first) = curve.point(0);
    if first.is_zero() {
        first_fall(curve)
    } else {
        Some(Difference {
            time: Q::zero(),
            left: first,
            right: Q::zero(),
        })
    }
}

// Tests C1 for the inflow of a link.
fn check_inflow(flow: &Flow, link: LinkId) -> Result<(), Ended>
    requires { link < length flow.now.inflows.items }
    ensures { (net : SeenNetwork)
        → Tries (λ _. tt) result (inflow_rule passes_Q net (seen_flow flow.now) link) }
{
    let inflow = trace_at(&flow.inflows, link);
    unless(
        CheckRule::C1,
        Subject::Link(link),
        inflow_fault(&inflow.curve),
    )
}

/// Tests C1 for the inflows of all links, in order.
pub fn check_inflows(net: &Network, flow: &Flow) -> Result<(), Ended>
    requires { length flow.now.inflows.items ≡ length net.now.net.links }
    ensures { Tries (λ _. tt) result (done
        (each (inflow_rule passes_Q net.now.net (seen_flow flow.now)) (numbers_of_links net.now.net))) }
{
    for number in 0..net.link_count() {
        check_inflow(flow, LinkId(number))?;
    }
    Ok(())
}
