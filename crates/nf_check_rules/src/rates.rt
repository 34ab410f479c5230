// Rule C2: each printed rate is the slope to the next point.
ghost use Rattle.std.specs.Prelude.{◌≡◌, ◌<◌, suc, length, option_map};
ghost use Rattle.nf_frac_def.specs.Passing.{passes_Q};
ghost use Rattle.nf_frac_def.specs.Checked.{each};
ghost use Rattle.nf_model.specs.Network.{Network as SeenNetwork};
ghost use Rattle.nf_net_def.specs.Report.{HaveRates};
ghost use Rattle.nf_check_def.specs.declared.Subject.TheVariants.{Link as OfLink};
ghost use Rattle.nf_check_def.specs.PointRules.{if_other, rates_list};
ghost use Rattle.nf_check_def.specs.Rules.{numbers_of_links};
ghost use Rattle.nf_check_def.specs.CheckList.{link_rates};
ghost use Rattle.nf_curve.specs.Differences.{difference_of};
ghost use Rattle.nf_curve.specs.Flows.{seen_flow};
ghost use Rattle.nf_check_rules.specs.Trials.{Tries, done};

use crate::ended::{Ended, unless};
use crate::subject::Subject;
use crate::worked::trace_at;
use nf_check_def::CheckRule;
use nf_curve::{Difference, Flow, Trace, slope};
use nf_frac::{Part, Q};
use nf_graph::LinkId;
use nf_net::Network;

// Returns the printed rate and the slope from a time on, if they differ.
fn other_rate(time: Q, rate: Q, slope: Q) -> Option<Difference>
    ensures { option_map difference_of result ≡ if_other time rate slope }
{
    if rate.is_same(slope) {
        None
    } else {
        Some(Difference {
            time,
            left: rate,
            right: slope,
        })
    }
}

// Tests C2 for the rates of one trace of a link.
fn check_trace(link: LinkId, trace: &Trace) -> Result<(), Ended>
    requires { length trace.now.curve.points ≡ suc (length trace.now.rates.items) }
    ensures { Tries (λ _. tt) result
        (rates_list passes_Q (OfLink link) trace.now.curve.points trace.now.rates.items) }
{
    // Proof: times rise.
    trace.curve.recall();
    for (i, rate) in trace.rates.iter().enumerate() {
        let point = trace.curve.point(i);
        let next = trace.curve.point(i + 1);
        let slope = slope(&point, &next, Part::Check)?;
        unless(
            CheckRule::C2,
            Subject::Link(link),
            other_rate(point.0, *rate, slope),
        )?;
    }
    Ok(())
}

// Tests C2 for a link's inflow, and then for its outflow.
fn check_link_rates(flow: &Flow, link: LinkId) -> Result<(), Ended>
    requires inflow { link < length flow.now.inflows.items }
    requires outflow { link < length flow.now.outflows.items }
    requires inflow_rates { HaveRates (seen_flow flow.now).inflows }
    requires outflow_rates { HaveRates (seen_flow flow.now).outflows }
    ensures { (net : SeenNetwork)
        → Tries (λ _. tt) result (link_rates passes_Q net (seen_flow flow.now) link) }
{
    check_trace(link, trace_at(&flow.inflows, link))?;
    check_trace(link, trace_at(&flow.outflows, link))
}

/// Tests C2 for all links, in order. Each trace has one rate less than points.
pub fn check_rates(net: &Network, flow: &Flow) -> Result<(), Ended>
    requires inflows { length flow.now.inflows.items ≡ length net.now.net.links }
    requires outflows { length flow.now.outflows.items ≡ length net.now.net.links }
    requires inflow_rates { HaveRates (seen_flow flow.now).inflows }
    requires outflow_rates { HaveRates (seen_flow flow.now).outflows }
    ensures { Tries (λ _. tt) result
        (done (each (link_rates passes_Q net.now.net (seen_flow flow.now)) (numbers_of_links net.now.net))) }
{
    for number in 0..net.link_count() {
        check_link_rates(flow, LinkId(number))?;
    }
    Ok(())
}
