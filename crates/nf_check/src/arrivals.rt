// Rule C3: the labels are the least exits.
ghost use Rattle.std.specs.Prelude.{◌<◌, OnOk};
ghost use Rattle.nf_frac_def.specs.Checked.{each};
ghost use Rattle.nf_check_def.specs.Rules.{nodes_but};
ghost use Rattle.nf_check_def.specs.CheckList.{arrivals};
ghost use Rattle.nf_check_rules.specs.Exits.{AreStored};
ghost use Rattle.nf_check_rules.specs.Views.{network_in, in_view};
ghost use Rattle.nf_check_rules.specs.Steps.{arrivals_list};
ghost use Rattle.nf_check_rules.specs.Trials.{Tries, done};

use nf_check_def::CheckRule;
use nf_check_rules::{Ended, Exits, Subject, Worked, compare, label_at, least_exits};
use nf_curve::Curve;
use nf_graph::NodeId;
use std::alloc::Global;

// Tests C3 for the label of a node. Stores the exits it computes.
fn check_arrival(
    alloc: Global,
    worked: &Worked,
    node: NodeId,
    exits: &mut Exits,
) -> Result<(), Ended>
    requires node { node < (network_in worked.now).nodes }
    requires kept { AreStored worked.now exits.old }
    ensures tries { Tries (λ _. tt) result (in_view arrivals worked.now node) }
    ensures kept { OnOk result (AreStored worked.now exits.new) }
{
    let least = least_exits(alloc, worked, node, exits)?;
    match &least {
        None => Ok(()),
        Some(least) => {
            let label = label_at(worked, node);
            compare(
                CheckRule::C3,
                Subject::Node(node),
                label,
                least,
                worked.flow.reached,
            )
        }
    }
}

// Tests C3 for the labels of all nodes except the source.
fn check_arrivals_at(alloc: Global, worked: &Worked, exits: &mut Exits) -> Result<(), Ended>
    requires { AreStored worked.now exits.old }
    ensures tries { Tries (λ _. tt) result
        (done (each (in_view arrivals worked.now)
        (nodes_but (network_in worked.now).source (network_in worked.now)))) }
    ensures kept { OnOk result (AreStored worked.now exits.new) }
{
    for number in 0..worked.net.node_count() {
        let node = NodeId(number);
        if node != worked.net.source() {
            check_arrival(alloc, worked, node, exits)?;
        }
    }
    Ok(())
}

/// Tests C3: the label of the source is the departure, and each other label is the least exit. Stores the exits it computes in `exits`.
pub(crate) fn check_arrivals(alloc: Global, worked: &Worked, exits: &mut Exits) -> Result<(), Ended>
    requires { AreStored worked.now exits.old }
    ensures tries { Tries (λ _. tt) result (in_view arrivals_list worked.now) }
    ensures kept { OnOk result (AreStored worked.now exits.new) }
{
    let source = worked.net.source();
    let line = Curve::identity(alloc, worked.flow.reached)?;
    let label = label_at(worked, source);
    compare(
        CheckRule::C3,
        Subject::Node(source),
        label,
        &line,
        worked.flow.reached,
    )?;
    check_arrivals_at(alloc, worked, exits)
}
