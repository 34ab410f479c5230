// The equilibrium test.
ghost use Rattle.std.specs.Prelude.{◌≡◌, ◌<◌, ℕ, length, map, IfOk};
ghost use Rattle.nf_rational.specs.Operations.{0ℚ};
ghost use Rattle.nf_rational.specs.Order.{◌≤ℚ◌};
ghost use Rattle.nf_frac_def.specs.Passing.{passes_Q};
ghost use Rattle.nf_frac_def.specs.Checked.{Gives};
ghost use Rattle.nf_model.specs.Curve.{IsCurve};
ghost use Rattle.nf_model.specs.Equilibrium.{points_at, points_of};
ghost use Rattle.nf_net_def.specs.Report.{HaveRates};
ghost use Rattle.nf_check_def.specs.Rules.{Checks};
ghost use Rattle.nf_check_def.specs.CheckList.{trial, check_list};
ghost use Rattle.nf_curve.specs.Flows.{seen_trace, seen_flow};
ghost use Rattle.nf_check.specs.Answers.{IsExact};
ghost use Rattle.nf_check.specs.Given.{IsGivenFlow, AreCut};
ghost use Rattle.nf_check_rules.specs.Kept.{points_of_each, loadings_of};
ghost use Rattle.nf_check_rules.specs.Views.{in_view};
ghost use Rattle.nf_check_rules.specs.Steps.{worked_list, told_list, compared_list};
ghost use Rattle.nf_check_rules.specs.Trials.{Tries, done};

use crate::answer::{Answer, answer_of};
use crate::arrivals::check_arrivals;
use crate::labels::{are_whole, check_labels, cut_labels};
use nf_check_rules::{
    Ended, Exits, Worked, check_balances, check_inflows, check_outflows, check_queues, check_rates,
    check_routes, load_links,
};
use nf_curve::{Curve, Flow, Trace};
use nf_frac::{Halt, Q};
use nf_load::Loaded;
use nf_net::Network;
use std::alloc::Global;

// Loads the links. Tests C1 for the inflows and C2 before it loads the links. `labels` are the labels up to the departure reached.
#[tactic(auto, unfolding(nf_check_rules::specs::Steps::worked_list))]
fn load_tested(
    alloc: Global,
    net: &Network,
    flow: &Flow,
    labels: &[Curve],
) -> Result<Vec<Loaded>, Ended>
    requires given { IsGivenFlow net.now.net flow.now }
    requires labels { AreCut net.now.net flow.now labels.now }
    ensures list { Tries (λ loaded. (points_of_each labels.now, loadings_of loaded.items)) result
        (worked_list passes_Q net.now.net (seen_flow flow.now)) }
    ensures count { IfOk result (λ loaded. length loaded.items ≡ length net.now.net.links) }
{
    check_inflows(net, flow)?;
    check_rates(net, flow)?;
    load_links(alloc, net, flow, labels)
}

// Tests C4 for the outflows of all links, and then C5 for their queues.
#[tactic(auto, unfolding(nf_check_rules::specs::Steps::told_list))]
fn check_told(worked: &Worked) -> Result<(), Ended>
    ensures { Tries (λ _. tt) result (in_view told_list worked.now) }
{
    check_outflows(worked)?;
    check_queues(worked)
}

// Tests the rules that compare curves: C3 to C8.
#[tactic(auto, unfolding(nf_check_rules::specs::Steps::compared_list), using(nf_check_rules::proofs::Keeping::none_kept))]
fn compare_all(alloc: Global, worked: &Worked) -> Result<(), Ended>
    ensures { Tries (λ _. tt) result (in_view compared_list worked.now) }
{
    let mut exits = Exits::none(alloc, worked.net)?;
    check_arrivals(alloc, worked, &mut exits)?;
    check_told(worked)?;
    check_balances(alloc, worked)?;
    check_routes(alloc, worked, &mut exits)
}

// Tests all rules after C1 for the labels. `labels` are the labels up to the departure reached.
fn test_with(alloc: Global, net: &Network, flow: &Flow, labels: &[Curve]) -> Result<(), Ended>
    requires given { IsGivenFlow net.now.net flow.now }
    requires labels { AreCut net.now.net flow.now labels.now }
    ensures { Tries (λ _. tt) result (done (trial passes_Q net.now.net (seen_flow flow.now))) }
{
    let loaded = load_tested(alloc, net, flow, labels)?;
    let worked = Worked {
        net,
        flow,
        labels,
        loaded: &loaded,
    };
    compare_all(alloc, &worked)
}

// Tests all rules, in order. Borrows the labels if each ends at the departure reached. Otherwise cuts copies of them there.
fn test_all(alloc: Global, net: &Network, flow: &Flow) -> Result<(), Ended>
    requires { IsGivenFlow net.now.net flow.now }
    ensures { Tries (λ _. tt) result (done (trial passes_Q net.now.net (seen_flow flow.now))) }
{
    if are_whole(&flow.labels, flow.reached) {
        check_labels(net, flow)?;
        return test_with(alloc, net, flow, &flow.labels);
    }
    let labels = cut_labels(alloc, net, flow)?;
    test_with(alloc, net, flow, &labels)
}

// Does nothing. Proof: the points of each curve are a curve.
fn know_curves(curves: &[Curve])
    ensures { (i : ℕ) → i < length curves.now → IsCurve (points_at (points_of_each curves.now) i) }
{
    for curve in curves {
        curve.recall();
    }
}

// Does nothing. Proof: the points of each trace are a curve.
fn know_traces(traces: &[Trace])
    ensures { (i : ℕ) → i < length traces.now
        → IsCurve (points_at (points_of (map seen_trace traces.now)) i) }
{
    for trace in traces {
        trace.curve.recall();
    }
}

/// Decides whether a flow is an equilibrium of a network up to the departure that it reached. Returns `Yes` exactly if the flow is one.
///
/// `No` holds the first broken rule, the first node or link that breaks it, a time, and two different values. For C1 and C2 the time is
/// that of the first point that breaks the rule. For C3 to C7 the time is the first corner at which two curves differ; they may also differ
/// earlier, between two corners. For C8 the time is a departure in the first interval on which a link off the shortest routes takes flow.
///
/// The flow must have a label for each node, and an inflow, an outflow and a queue for each link. Its traces must have one rate fewer than
/// points. The departure reached must be at least 0. Returns `Passed` exactly at the first operation of its operation sequence that passes,
/// with part Check or Load.
pub fn check(alloc: Global, net: &Network, flow: &Flow) -> Result<Answer, Halt<Q>>
    requires labels { length flow.now.labels.items ≡ net.now.net.nodes }
    requires inflows { length flow.now.inflows.items ≡ length net.now.net.links }
    requires outflows { length flow.now.outflows.items ≡ length net.now.net.links }
    requires queues { length flow.now.queues.items ≡ length net.now.net.links }
    requires inflow_rates { HaveRates (seen_flow flow.now).inflows }
    requires outflow_rates { HaveRates (seen_flow flow.now).outflows }
    requires reached { 0ℚ ≤ℚ flow.now.reached }
    ensures list { Gives (λ answer. answer) (λ q. q) result
        (check_list passes_Q net.now.net (seen_flow flow.now)) }
    ensures rules { IfOk result (λ answer. Checks net.now.net (seen_flow flow.now) answer) }
    ensures exact { IfOk result (λ answer. IsExact net.now.net (seen_flow flow.now) answer) }
{
    // Proof: the network is well formed, and the points of the flow are curves.
    net.recall();
    know_curves(&flow.labels);
    know_traces(&flow.inflows);
    know_traces(&flow.outflows);
    know_curves(&flow.queues);
    answer_of(test_all(alloc, net, flow))
}
