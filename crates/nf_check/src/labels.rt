// Rule C1 for labels: no label is negative up to the departure reached.
ghost use Rattle.std.specs.Prelude.{◌≡◌, ◌<◌, length, option_map, IsTrue};
ghost use Rattle.nf_rational.specs.Operations.{0ℚ};
ghost use Rattle.nf_rational.specs.Order.{◌≤ℚ◌};
ghost use Rattle.nf_frac_def.specs.Passing.{passes_Q};
ghost use Rattle.nf_frac_def.specs.Checked.{each};
ghost use Rattle.nf_model.specs.Equilibrium.{points_at};
ghost use Rattle.nf_model.specs.Network.{Network as SeenNetwork};
ghost use Rattle.nf_check_def.specs.PointRules.{negative_point as negative_by};
ghost use Rattle.nf_check_def.specs.Rules.{numbers_of_nodes};
ghost use Rattle.nf_check_def.specs.CheckList.{label_cut};
ghost use Rattle.nf_curve.specs.Differences.{difference_of};
ghost use Rattle.nf_curve.specs.Flows.{seen_flow};
ghost use Rattle.nf_check.specs.Given.{AreWhole};
ghost use Rattle.nf_check_rules.specs.Kept.{points_of_each};
ghost use Rattle.nf_check_rules.specs.Trials.{Tries};

use nf_check_def::CheckRule;
use nf_check_rules::{Ended, Subject, curve_at, unless};
use nf_curve::{Curve, Difference, Flow, ends_at};
use nf_frac::{Part, Q};
use nf_graph::NodeId;
use nf_net::Network;
use std::alloc::Global;

// Returns the first point with a negative value, and 0.
fn negative_point(curve: &Curve) -> Option<Difference>
    ensures { option_map difference_of result ≡ negative_by curve.now.points }
{
    for i in 0..curve.len() {
        let (time, value) = curve.point(i);
        if value.is_below(Q::zero()) {
            return Some(Difference {
                time,
                left: value,
                right: Q::zero(),
            });
        }
    }
    None
}

/// Returns whether each of the labels ends at the time `last`. Then each label is its own cut there.
pub(crate) fn are_whole(labels: &[Curve], last: Q) -> bool
    requires { 0ℚ ≤ℚ last }
    ensures { IsTrue result → AreWhole labels.now last }
{
    for label in labels {
        if !ends_at(label.as_points(), last) {
            return false;
        }
    }
    true
}

// Tests C1 for the label of a node, which ends at the departure reached.
fn check_label(flow: &Flow, node: NodeId) -> Result<(), Ended>
    requires node { node < length flow.now.labels.items }
    requires whole { AreWhole flow.now.labels.items flow.now.reached }
    ensures { (net : SeenNetwork) → Tries (λ _. points_at (seen_flow flow.now).labels node) result
        (label_cut passes_Q net (seen_flow flow.now) node) }
{
    let label = curve_at(&flow.labels, node.index());
    unless(CheckRule::C1, Subject::Node(node), negative_point(label))
}

/// Tests C1 for the labels of all nodes, each of which ends at the departure reached. Does not allocate.
pub(crate) fn check_labels(net: &Network, flow: &Flow) -> Result<(), Ended>
    requires labels { length flow.now.labels.items ≡ net.now.net.nodes }
    requires whole { AreWhole flow.now.labels.items flow.now.reached }
    ensures { Tries (λ _. points_of_each flow.now.labels.items) result
        (each (label_cut passes_Q net.now.net (seen_flow flow.now)) (numbers_of_nodes net.now.net)) }
{
    for number in 0..net.node_count() {
        check_label(flow, NodeId(number))?;
    }
    Ok(())
}

// Cuts the label of a node at the departure reached, and tests C1 for it.
fn cut_label(alloc: Global, flow: &Flow, node: NodeId) -> Result<Curve, Ended>
    requires node { node < length flow.now.labels.items }
    requires reached { 0ℚ ≤ℚ flow.now.reached }
    ensures { (net : SeenNetwork)
        → Tries (λ c. c.points) result (label_cut passes_Q net (seen_flow flow.now) node) }
{
    let label = curve_at(&flow.labels, node.index());
    let cut = label.cut(alloc, flow.reached, Part::Check)?;
    unless(CheckRule::C1, Subject::Node(node), negative_point(&cut))?;
    Ok(cut)
}

/// Cuts the labels of all nodes at the departure reached, and tests C1 for them.
pub(crate) fn cut_labels(alloc: Global, net: &Network, flow: &Flow) -> Result<Vec<Curve>, Ended>
    requires labels { length flow.now.labels.items ≡ net.now.net.nodes }
    requires reached { 0ℚ ≤ℚ flow.now.reached }
    ensures { Tries (λ labels. points_of_each labels.items) result
        (each (label_cut passes_Q net.now.net (seen_flow flow.now)) (numbers_of_nodes net.now.net)) }
{
    let mut labels = Vec::with_capacity(alloc, net.node_count() as usize)?;
    for number in 0..net.node_count() {
        let cut = cut_label(alloc, flow, NodeId(number))?;
        labels.push(cut)?;
    }
    Ok(labels)
}
