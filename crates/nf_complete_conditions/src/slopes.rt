// Slopes of active links in a thin flow.
ghost use Rattle.std.specs.Prelude.{◌≡◌, ◌<◌, ◌||◌, ℕ, Bool, false, not, length, Some, None};
ghost use Rattle.nf_frac_def.specs.Passing.{passes_Q};
ghost use Rattle.nf_model.specs.Network.{Link as SeenLink, IsLink};
ghost use Rattle.nf_complete_def.specs.Cancelling.{full_at as full_at_by, fulls_list};
ghost use Rattle.nf_complete_conditions.specs.Testing.{AnswersWhether};
ghost use Rattle.nf_complete_conditions.specs.ThinParts.{keeps_test, KeepsAt};

use crate::filled::full_at;
use crate::numbers::{both, flow_of, slope_of};
use nf_frac::{PassedAt, Q};
use nf_graph::{LinkId, LinkSets};
use nf_net::Network;

// Returns whether an unbounded link satisfies the slope condition.
fn keeps_unbounded(flow: Q, tail_slope: Q, head_slope: Q) -> bool
    ensures { (resets : Bool) → result ≡ keeps_test resets None flow tail_slope head_slope }
{
    head_slope.is_at_most(tail_slope)
        && (flow.is_at_most(Q::zero()) || tail_slope.is_at_most(head_slope))
}

// Returns whether a link that the flow `full` fills, and that is not resetting, satisfies the slope condition.
fn keeps_bounded(full: Q, flow: Q, tail_slope: Q, head_slope: Q) -> bool
    ensures { result ≡ keeps_test false (Some full) flow tail_slope head_slope }
{
    let may_rise = head_slope.is_at_most(tail_slope) || full.is_at_most(flow);
    let is_taken = tail_slope.is_at_most(head_slope) && flow.is_at_most(full);
    may_rise && (flow.is_at_most(Q::zero()) || is_taken)
}

// Returns whether an active link satisfies the slope condition.
fn keeps_slopes(resets: bool, full: Option<Q>, flow: Q, tail_slope: Q, head_slope: Q) -> bool
    ensures { result ≡ keeps_test resets full flow tail_slope head_slope }
{
    match full {
        None => keeps_unbounded(flow, tail_slope, head_slope),
        Some(full) => {
            if resets {
                flow.is_same(full)
            } else {
                keeps_bounded(full, flow, tail_slope, head_slope)
            }
        }
    }
}

// Returns whether a link satisfies the slope condition. A link that is not active always does.
fn keeps_if_active(
    active: bool,
    resets: bool,
    full: Option<Q>,
    flow: Q,
    tail_slope: Q,
    head_slope: Q,
) -> bool
    ensures { result ≡ (not active || keeps_test resets full flow tail_slope head_slope) }
{
    !active || keeps_slopes(resets, full, flow, tail_slope, head_slope)
}

// Returns whether the link satisfies the slope condition.
fn keeps_at(
    net: &Network,
    sets: &LinkSets,
    flows: &[Q],
    slopes: &[Q],
    link: LinkId,
) -> Result<bool, PassedAt<Q>>
    requires link { link < length net.now.net.links }
    requires sets { length sets.now.active ≡ length net.now.net.links }
    requires flows { length flows.now ≡ length net.now.net.links }
    requires slopes { length slopes.now ≡ net.now.net.nodes }
    ensures { (here : SeenLink) → IsLink net.now.net link here
        → AnswersWhether (KeepsAt sets.now flows.now slopes.now link here)
        (full_at_by passes_Q sets.now slopes.now (link, here)) result }
{
    let full = full_at(net, sets, slopes, link)?;
    let here = net.link(link);
    let kept = keeps_if_active(
        sets.active(link),
        sets.resetting(link),
        full,
        flow_of(flows, link),
        slope_of(slopes, here.tail),
        slope_of(slopes, here.head),
    );
    Ok(kept)
}

/// Returns whether each active link satisfies the slope condition of a thin flow. Returns `Passed` exactly at the first product that
/// passes, with part Verdict.
pub fn keep_slopes(
    net: &Network,
    sets: &LinkSets,
    flows: &[Q],
    slopes: &[Q],
) -> Result<bool, PassedAt<Q>>
    requires sets { length sets.now.active ≡ length net.now.net.links }
    requires flows { length flows.now ≡ length net.now.net.links }
    requires slopes { length slopes.now ≡ net.now.net.nodes }
    ensures { AnswersWhether ((e : ℕ) (link : SeenLink) → IsLink net.now.net e link
        → KeepsAt sets.now flows.now slopes.now e link)
        (fulls_list passes_Q net.now.net sets.now slopes.now) result }
{
    let mut all = true;
    for e in 0..net.link_count() {
        let here = keeps_at(net, sets, flows, slopes, LinkId(e))?;
        all = both(all, here);
    }
    Ok(all)
}
