// The room along a walk.
ghost use Rattle.std.specs.Prelude.{◌≡◌, ◌<◌, length, None};
ghost use Rattle.std.specs.List.{AllByRecursion};
ghost use Rattle.nf_frac_def.specs.declared.Part.TheVariants.{Quick};
ghost use Rattle.nf_frac_def.specs.Passing.{passes_Q};
ghost use Rattle.nf_frac_def.specs.Checked.{at_part, fold_checked};
ghost use Rattle.nf_quick_def.specs.Rounds.{room_along as room_along_by, room_after as room_after_by};

use crate::flows::{flow_at, lesser};
use crate::step::Step;
use nf_frac::{Part, PassedAt, Q};
use nf_net::Network;

// Returns the lesser of the room so far and the residual capacity of one more step. A backward step has the flow of its link; a forward
// step has the capacity minus the flow, or no limit if the link is unbounded.
fn room_along(
    forward: bool,
    capacity: Option<Q>,
    flow: Q,
    least: Option<Q>,
) -> Result<Option<Q>, PassedAt<Q>>
    ensures { result ≡ at_part Quick (room_along_by passes_Q forward capacity flow least) }
{
    if !forward {
        return Ok(Some(lesser(least, flow)));
    }
    match capacity {
        None => Ok(least),
        Some(capacity) => {
            let left = nf_frac::at!(Part::Quick, capacity.difference(flow));
            Ok(Some(lesser(least, left)))
        }
    }
}

fn room_after(
    net: &Network,
    flows: &[Q],
    least: Option<Q>,
    step: Step,
) -> Result<Option<Q>, PassedAt<Q>>
    requires step { step.link < length net.now.net.links }
    requires flows { length flows.now ≡ length net.now.net.links }
    ensures { result ≡ at_part Quick (room_after_by passes_Q net.now.net flows.now least step) }
{
    let link = net.link(step.link);
    let flow = flow_at(flows, step.link);
    room_along(step.forward, link.capacity, flow, least)
}

/// Returns the least residual capacity along a walk, a rate, or None if every step is a forward step along an unbounded link.
pub(crate) fn room_of(net: &Network, flows: &[Q], steps: &[Step]) -> Result<Option<Q>, PassedAt<Q>>
    requires steps { AllByRecursion (λ step. step.link < length net.now.net.links) steps.now }
    requires flows { length flows.now ≡ length net.now.net.links }
    ensures { result ≡ at_part Quick
        (fold_checked (room_after_by passes_Q net.now.net flows.now) None steps.now) }
{
    let mut least = None;
    for step in steps {
        let step: Step = *step;
        least = room_after(net, flows, least, step)?;
    }
    Ok(least)
}
