// Rules C6 and C7: conservation at the nodes, and at the sink.
ghost use Rattle.std.specs.Prelude.{◌≡◌, ◌<◌, ◌==◌, if◌then◌else◌};
ghost use Rattle.nf_rational.specs.Operations.{0ℚ};
ghost use Rattle.nf_rational.specs.Order.{◌≤ℚ◌};
ghost use Rattle.nf_frac_def.specs.declared.Part.TheVariants.{Check};
ghost use Rattle.nf_frac_def.specs.Passing.{passes_Q};
ghost use Rattle.nf_frac_def.specs.Checked.{at_part, each, Gives};
ghost use Rattle.nf_check_def.specs.Rules.{nodes_but};
ghost use Rattle.nf_check_def.specs.Curves.{last_value as last_by};
ghost use Rattle.nf_check_def.specs.CheckList.{balance, sink_rules};
ghost use Rattle.nf_model.specs.Equilibrium.{points_at};
ghost use Rattle.nf_check_rules.specs.Kept.{IsFromZero};
ghost use Rattle.nf_check_rules.specs.Views.{network_in, flow_in, labels_in, in_view};
ghost use Rattle.nf_check_rules.specs.Steps.{with_supply_by, stays_by, balances_list};
ghost use Rattle.nf_check_rules.specs.Trials.{Tries, done};

use crate::compared::compare;
use crate::ended::Ended;
use crate::subject::Subject;
use crate::totals::{total_in, total_out};
use crate::values::first_value;
use crate::worked::{Worked, label_at, last_label};
use nf_check_def::CheckRule;
use nf_curve::Curve;
use nf_frac::{Halt, Part, Q};
use nf_graph::NodeId;
use nf_load::cumulative;
use nf_net::Network;
use std::alloc::Global;

// Adds the supply to the node's inflow, if the node is the source.
fn with_supply(
    alloc: Global,
    net: &Network,
    supplied: &Curve,
    node: NodeId,
    total: Curve,
) -> Result<Curve, Halt<Q>>
    ensures { Gives (λ c. c.points) (λ q. q) result
        (at_part Check
        (with_supply_by passes_Q net.now.net supplied.now.points node total.points)) }
{
    if node == net.source() {
        Curve::sum(alloc, &total, supplied, Part::Check)
    } else {
        Ok(total)
    }
}

// Returns the last time of the test at a node: the departure reached at the source, the last label at any other node.
fn end_at(worked: &Worked, node: NodeId) -> Q
    requires { node < (network_in worked.now).nodes }
    ensures end { result ≡
        (if node == (network_in worked.now).source then worked.now.flow.now.reached else last_by
        (points_at (labels_in worked.now) node)) }
    ensures nonnegative { 0ℚ ≤ℚ result }
{
    if node == worked.net.source() {
        worked.flow.reached
    } else {
        last_label(worked, node)
    }
}

// Tests C6 at a node: its inflow, with the supply, equals its outflow.
fn check_balance(
    alloc: Global,
    worked: &Worked,
    supplied: &Curve,
    node: NodeId,
) -> Result<(), Ended>
    requires { node < (network_in worked.now).nodes }
    ensures { Tries (λ _. tt) result (in_view balance worked.now supplied.now.points node) }
{
    let comes = total_in(alloc, worked.net, worked.loaded, node)?;
    let total = with_supply(alloc, worked.net, supplied, node, comes)?;
    let goes = total_out(alloc, worked.net, worked.flow, node)?;
    compare(
        CheckRule::C6,
        Subject::Node(node),
        &total,
        &goes,
        end_at(worked, node),
    )
}

// Tests C6 at all nodes except the sink.
fn check_balances_at(alloc: Global, worked: &Worked, supplied: &Curve) -> Result<(), Ended>
    ensures { Tries (λ _. tt) result
        (done (each (in_view balance worked.now supplied.now.points)
        (nodes_but (network_in worked.now).sink (network_in worked.now)))) }
{
    for number in 0..worked.net.node_count() {
        let node = NodeId(number);
        if node != worked.net.sink() {
            check_balance(alloc, worked, supplied, node)?;
        }
    }
    Ok(())
}

// Tests C7 after the first arrival: the amount entered by an arrival is the amount left plus the supply up to the departure.
fn check_stays(
    alloc: Global,
    worked: &Worked,
    label: &Curve,
    comes: &Curve,
    goes: &Curve,
    supplied: &Curve,
) -> Result<(), Ended>
    requires { IsFromZero label.now.points }
    ensures { Tries (λ _. tt) result
        (stays_by passes_Q (network_in worked.now).sink label.now.points comes.now.points
        goes.now.points supplied.now.points
        (flow_in worked.now).reached) }
{
    let reached = worked.flow.reached;
    let come = Curve::compose(alloc, comes, label, reached, Part::Check)?;
    let gone = Curve::compose(alloc, goes, label, reached, Part::Check)?;
    let total = Curve::sum(alloc, &gone, supplied, Part::Check)?;
    let sink = Subject::Node(worked.net.sink());
    compare(CheckRule::C7, sink, &come, &total, reached)
}

// Tests C7. Up to the first arrival, the sink's inflow equals its outflow. From then on, the amount entered by an arrival is the amount
// left plus the supply up to the departure.
fn check_sink(alloc: Global, worked: &Worked, supplied: &Curve) -> Result<(), Ended>
    ensures { Tries (λ _. tt) result (in_view sink_rules worked.now supplied.now.points) }
{
    let sink = worked.net.sink();
    let label = label_at(worked, sink);
    let comes = total_in(alloc, worked.net, worked.loaded, sink)?;
    let goes = total_out(alloc, worked.net, worked.flow, sink)?;
    compare(
        CheckRule::C7,
        Subject::Node(sink),
        &comes,
        &goes,
        first_value(label),
    )?;
    check_stays(alloc, worked, label, &comes, &goes, supplied)
}

/// Tests C6 at all nodes except the sink, and then C7 at the sink. Returns an error with the first difference, if there is one.
#[tactic(auto, unfolding(crate::specs::Steps::balances_list))]
pub fn check_balances(alloc: Global, worked: &Worked) -> Result<(), Ended>
    ensures { Tries (λ _. tt) result (in_view balances_list worked.now) }
{
    let supplied = cumulative(alloc, worked.net.pieces(), worked.flow.reached)?;
    check_balances_at(alloc, worked, &supplied)?;
    check_sink(alloc, worked, &supplied)
}
