// Rule C8: flow uses only links on shortest routes.
ghost use Rattle.std.specs.Prelude.{◌≡◌, ◌<◌, length, option_map, IfSome, Ok};
ghost use Rattle.std.specs.List.{enumerate_from};
ghost use Rattle.nf_frac_def.specs.declared.Part.TheVariants.{Check};
ghost use Rattle.nf_frac_def.specs.Checked.{at_part, each, Gives};
ghost use Rattle.nf_model.specs.Network.{Link, IsLink};
ghost use Rattle.nf_check_def.specs.CheckList.{route};
ghost use Rattle.nf_curve.specs.Differences.{difference_of};
ghost use Rattle.nf_check_rules.specs.Exits.{AreStored, IsKept};
ghost use Rattle.nf_check_rules.specs.Sent.{exits_of, detours_of};
ghost use Rattle.nf_check_rules.specs.Views.{network_in, in_view};
ghost use Rattle.nf_check_rules.specs.Trials.{Tries, done};

use crate::ended::{Ended, unless};
use crate::exits::Exits;
use crate::link_curves::LinkCurves;
use crate::sent::Sent;
use crate::stretches::first_detour;
use crate::subject::Subject;
use crate::worked::{Worked, label_at, loaded_at, trace_at};
use nf_check_def::CheckRule;
use nf_curve::{Curve, Difference};
use nf_frac::{Halt, Q};
use nf_graph::LinkId;
use std::alloc::Global;

// Returns the first departure at which the link takes flow off the shortest routes, if there is one, up to its `last`. Reuses the exits by
// departure if they are stored.
fn detour(
    alloc: Global,
    link: &LinkCurves,
    kept: Option<Curve>,
) -> Result<Option<Difference>, Halt<Q>>
    requires { IfSome kept (λ exits. exits_of link.now ≡ Ok exits.points) }
    ensures { Gives (option_map difference_of) (λ q. q) result
        (at_part Check (detours_of link.now)) }
{
    let sent = Sent::along(alloc, link, kept)?;
    let detour = first_detour(&sent)?;
    Ok(detour)
}

// Tests C8 for a link. Reuses the link's exits by departure if they are stored.
fn check_route(
    alloc: Global,
    worked: &Worked,
    kept: Option<Curve>,
    link: LinkId,
) -> Result<(), Ended>
    requires link { link < length (network_in worked.now).links }
    requires kept { IsKept worked.now link kept }
    ensures { (here : Link) → IsLink (network_in worked.now) link here
        → Tries (λ _. tt) result (in_view route worked.now (link, here)) }
{
    let here = worked.net.link(link);
    let curves = LinkCurves {
        inflow: &trace_at(&worked.flow.inflows, link).curve,
        exit: &loaded_at(worked.loaded, link).exit,
        tail_label: label_at(worked, here.tail),
        head_label: label_at(worked, here.head),
        last: worked.flow.reached,
    };
    let detour = detour(alloc, &curves, kept)?;
    unless(CheckRule::C8, Subject::Link(link), detour)
}

/// Tests C8 for all links, in order. Removes each link's stored exits before its test. The exits still stored satisfy `AreStored`, even
/// after a refusal.
pub fn check_routes(alloc: Global, worked: &Worked, exits: &mut Exits) -> Result<(), Ended>
    requires { AreStored worked.now exits.old }
    ensures tries { Tries (λ _. tt) result
        (done (each (in_view route worked.now) (enumerate_from 0 (network_in worked.now).links))) }
    ensures kept { AreStored worked.now exits.new }
{
    for number in 0..worked.net.link_count() {
        let link = LinkId(number);
        let kept = exits.take(link);
        check_route(alloc, worked, kept, link)?;
    }
    Ok(())
}
