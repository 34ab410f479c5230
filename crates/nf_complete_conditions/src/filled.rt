// The flow that fills a link. An active link with a capacity is filled by the capacity times the slope of its head.
ghost use Rattle.std.specs.Prelude.{◌≡◌, ◌<◌, length};
ghost use Rattle.nf_frac_def.specs.declared.Part.TheVariants.{Verdict};
ghost use Rattle.nf_frac_def.specs.Passing.{passes_Q};
ghost use Rattle.nf_frac_def.specs.Checked.{at_part, Gives};
ghost use Rattle.nf_model.specs.Network.{Link as SeenLink, IsLink};
ghost use Rattle.nf_complete_def.specs.Cancelling.{full_on, full_at as full_at_by, fulls_list};

use nf_frac::{Halt, Part, PassedAt, Q, at};
use nf_graph::{LinkId, LinkSets};
use nf_net::Network;
use std::alloc::Global;

fn full_of(active: bool, capacity: Option<Q>, head_slope: Q) -> Result<Option<Q>, PassedAt<Q>>
    ensures { result ≡ at_part Verdict (full_on passes_Q active capacity head_slope) }
{
    match capacity {
        Some(capacity) => {
            if active {
                let full = at!(Part::Verdict, capacity.product(head_slope));
                Ok(Some(full))
            } else {
                Ok(None)
            }
        }
        None => Ok(None),
    }
}

/// Returns the flow that fills a link, or `None` if the link is not active or is unbounded.
pub(crate) fn full_at(
    net: &Network,
    sets: &LinkSets,
    slopes: &[Q],
    link: LinkId,
) -> Result<Option<Q>, PassedAt<Q>>
    requires link { link < length net.now.net.links }
    requires sets { length sets.now.active ≡ length net.now.net.links }
    requires slopes { length slopes.now ≡ net.now.net.nodes }
    ensures { (here : SeenLink) → IsLink net.now.net link here
        → result ≡ at_part Verdict (full_at_by passes_Q sets.now slopes.now (link, here)) }
{
    let here = net.link(link);
    full_of(sets.active(link), here.capacity, slopes[here.head.index()])
}

/// Returns the flow that fills each link. Returns `Passed` exactly at the first product that passes, with part Verdict.
pub fn fulls(
    alloc: Global,
    net: &Network,
    sets: &LinkSets,
    slopes: &[Q],
) -> Result<Vec<Option<Q>>, Halt<Q>>
    requires sets { length sets.now.active ≡ length net.now.net.links }
    requires slopes { length slopes.now ≡ net.now.net.nodes }
    ensures { Gives (λ fulls. fulls.items) (λ q. q) result
        (at_part Verdict (fulls_list passes_Q net.now.net sets.now slopes.now)) }
{
    let mut fulls = Vec::new(alloc);
    for e in 0..net.link_count() {
        let full = full_at(net, sets, slopes, LinkId(e))?;
        fulls.push(full)?;
    }
    Ok(fulls)
}
