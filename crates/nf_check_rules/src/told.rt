// Rules C4 and C5: printed outflows and queues result from the inflows.
ghost use Rattle.std.specs.Prelude.{◌<◌, length};
ghost use Rattle.std.specs.List.{enumerate_from};
ghost use Rattle.nf_frac_def.specs.Checked.{each};
ghost use Rattle.nf_model.specs.Network.{Link, IsLink};
ghost use Rattle.nf_check_def.specs.CheckList.{outflow_rule, queue_rule};
ghost use Rattle.nf_check_rules.specs.Views.{network_in, in_view};
ghost use Rattle.nf_check_rules.specs.Trials.{Tries, done};

use crate::compared::compare;
use crate::ended::Ended;
use crate::subject::Subject;
use crate::worked::{Worked, curve_at, last_label, loaded_at, trace_at};
use nf_check_def::CheckRule;
use nf_graph::LinkId;

// Tests C4 for the outflow of a link, up to the last label of its head.
fn check_outflow(worked: &Worked, link: LinkId) -> Result<(), Ended>
    requires { link < length (network_in worked.now).links }
    ensures { (here : Link) → IsLink (network_in worked.now) link here → Tries (λ _. tt) result
        (in_view outflow_rule worked.now (link, here)) }
{
    let head = worked.net.link(link).head;
    let last = last_label(worked, head);
    let told = &trace_at(&worked.flow.outflows, link).curve;
    let right = &loaded_at(worked.loaded, link).outflow;
    compare(CheckRule::C4, Subject::Link(link), told, right, last)
}

// Tests C5 for the queue of a link, up to the last label of its tail.
fn check_queue(worked: &Worked, link: LinkId) -> Result<(), Ended>
    requires { link < length (network_in worked.now).links }
    ensures { (here : Link) → IsLink (network_in worked.now) link here → Tries (λ _. tt) result
        (in_view queue_rule worked.now (link, here)) }
{
    let tail = worked.net.link(link).tail;
    let last = last_label(worked, tail);
    let told = curve_at(&worked.flow.queues, link.index());
    let right = &loaded_at(worked.loaded, link).queue;
    compare(CheckRule::C5, Subject::Link(link), told, right, last)
}

/// Tests C4 for the outflows of all links, each up to the last label of the link's head.
pub fn check_outflows(worked: &Worked) -> Result<(), Ended>
    ensures { Tries (λ _. tt) result (done
        (each (in_view outflow_rule worked.now) (enumerate_from 0 (network_in worked.now).links))) }
{
    for number in 0..worked.net.link_count() {
        check_outflow(worked, LinkId(number))?;
    }
    Ok(())
}

/// Tests C5 for the queues of all links, each up to the last label of the link's tail.
pub fn check_queues(worked: &Worked) -> Result<(), Ended>
    ensures { Tries (λ _. tt) result (done
        (each (in_view queue_rule worked.now) (enumerate_from 0 (network_in worked.now).links))) }
{
    for number in 0..worked.net.link_count() {
        check_queue(worked, LinkId(number))?;
    }
    Ok(())
}
