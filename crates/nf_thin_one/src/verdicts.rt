// Whether flows and slopes meet the inequalities of a pattern.
ghost use Rattle.std.specs.Prelude.{◌≡◌, ◌<◌, ◌&&◌, not, length, Some, None, MatchOption, true, false};
ghost use Rattle.nf_rational.specs.Operations.{0ℚ};
ghost use Rattle.nf_rational.specs.Order.{le_ℚ};
ghost use Rattle.nf_frac_def.specs.declared.Part.TheVariants.{Verdict};
ghost use Rattle.nf_frac_def.specs.Passing.{passes_Q};
ghost use Rattle.nf_frac_def.specs.Checked.{at_part};
ghost use Rattle.nf_model.specs.Entries.{number_at};
ghost use Rattle.nf_model.specs.Network.{Link as SeenLink, IsLink};
ghost use Rattle.nf_thin_def.specs.Verdict.{bound_on, verdict_list};
ghost use Rattle.nf_thin_one.specs.Judging.{keeps, link_verdict, numbered_verdict, first_failed, first_broken, NoneNegativeBefore, IsFirstNegative, IsJudged, Judges};

use nf_frac::{Part, PassedAt, Q, at};
use nf_graph::{LinkId, LinkSets, NodeId};
use nf_model::State;
use nf_net::Network;
use nf_pattern::Pattern;

/// The verdict on flows and slopes: they meet the pattern, or this is the first node or link that fails.
#[derive(Clone, Copy)]
pub enum Judged {
    /// No flow or slope is negative, and each link meets the inequality of its state.
    Meets,
    /// The first node with a slope below 0.
    FailsNode(NodeId),
    /// No slope is below 0; the first link with a flow below 0, or whose inequality doesn't hold.
    FailsLink(LinkId),
}

// Returns the greatest flow that a Tight link with a capacity may carry, or `None` for any other link. Refuses if the product passes.
fn bound(state: Option<State>, capacity: Option<Q>, head_slope: Q) -> Result<Option<Q>, PassedAt<Q>>
    ensures { result ≡ at_part Verdict (bound_on passes_Q state capacity head_slope) }
{
    match state {
        Some(State::Tight) => match capacity {
            Some(capacity) => {
                let bound = at!(Part::Verdict, capacity.product(head_slope));
                Ok(Some(bound))
            }
            None => Ok(None),
        },
        _ => Ok(None),
    }
}

// Returns whether the inequality of a state holds, with this bound on the flow.
fn keeps_state(
    state: Option<State>,
    bound: Option<Q>,
    flow: Q,
    tail_slope: Q,
    head_slope: Q,
) -> bool
    ensures { result ≡ keeps state bound flow tail_slope head_slope }
{
    match state {
        Some(State::Tight) => match bound {
            Some(bound) => flow.is_at_most(bound),
            None => true,
        },
        Some(State::Full) => tail_slope.is_at_most(head_slope),
        Some(State::Zero) => head_slope.is_at_most(tail_slope),
        None => true,
    }
}

// Returns whether a number is at least 0.
fn is_not_negative(number: Q) -> bool
    ensures { result ≡ le_ℚ 0ℚ number }
{
    Q::zero().is_at_most(number)
}

// Returns whether the slope of a node is below 0.
fn is_negative_at(slopes: &[Q], v: usize) -> bool
    requires { v < length slopes.now }
    ensures { result ≡ not (le_ℚ 0ℚ (number_at slopes.now v)) }
{
    !is_not_negative(slopes[v])
}

// Returns whether a link has no negative flow and meets the inequality of its state. Refuses if the bound on its flow passes.
#[tactic(auto, unfolding(crate::specs::Judging::link_verdict))]
fn judge_link(
    state: Option<State>,
    capacity: Option<Q>,
    flow: Q,
    tail_slope: Q,
    head_slope: Q,
) -> Result<bool, PassedAt<Q>>
    ensures { result
        ≡ at_part Verdict (link_verdict passes_Q state capacity flow tail_slope head_slope) }
{
    let bound = bound(state, capacity, head_slope)?;
    Ok(is_not_negative(flow) && keeps_state(state, bound, flow, tail_slope, head_slope))
}

// Runs `judge_link` for a link of the network.
fn judge(
    net: &Network,
    pattern: &Pattern,
    flows: &[Q],
    slopes: &[Q],
    link: LinkId,
) -> Result<bool, PassedAt<Q>>
    requires link { link < length net.now.net.links }
    requires states { length pattern.now ≡ length net.now.net.links }
    requires flows { length flows.now ≡ length net.now.net.links }
    requires slopes { length slopes.now ≡ net.now.net.nodes }
    ensures { (here : SeenLink) → IsLink net.now.net link here
        → result ≡ at_part Verdict
        (numbered_verdict passes_Q pattern.now flows.now slopes.now (link, here)) }
{
    let here = net.link(link);
    judge_link(
        pattern.state(link),
        here.capacity,
        flows[link.index()],
        slopes[here.tail.index()],
        slopes[here.head.index()],
    )
}

// Returns the first link that fails, after one more link: `found` before it, and `keeps` states whether it meets its inequalities.
fn first_after(found: Option<LinkId>, keeps: bool, link: LinkId) -> Option<LinkId>
    ensures { result ≡ first_failed found keeps link }
{
    match found {
        Some(first) => Some(first),
        None => { if keeps { None } else { Some(link) } }
    }
}

// Returns the first link that fails, or `None` if each link meets its inequalities. Refuses at the first bound that passes.
fn first_failing(
    net: &Network,
    pattern: &Pattern,
    flows: &[Q],
    slopes: &[Q],
) -> Result<Option<LinkId>, PassedAt<Q>>
    requires states { length pattern.now ≡ length net.now.net.links }
    requires flows { length flows.now ≡ length net.now.net.links }
    requires slopes { length slopes.now ≡ net.now.net.nodes }
    ensures { result
        ≡ at_part Verdict (first_broken passes_Q net.now.net pattern.now flows.now slopes.now) }
{
    let mut found = None;
    for e in 0..net.link_count() {
        let link = LinkId(e);
        let keeps = judge(net, pattern, flows, slopes, link)?;
        found = first_after(found, keeps, link);
    }
    Ok(found)
}

// Returns the first node with a slope below 0, or `None` if there is none.
fn first_negative(net: &Network, slopes: &[Q]) -> Option<NodeId>
    requires { length slopes.now ≡ net.now.net.nodes }
    ensures { MatchOption result (NoneNegativeBefore slopes.now (length slopes.now))
        (IsFirstNegative slopes.now) }
{
    for v in 0..net.node_count() {
        if is_negative_at(slopes, v as usize) {
            return Some(NodeId(v));
        }
    }
    None
}

/// Returns whether flows and slopes meet a pattern: no flow or slope is negative, and each link meets the inequality of its state.
/// `flows` has one number for each link, an amount per unit of time; `labels` one for each node, the slope of its label: the label's change
/// per unit of departure time. If they don't meet it, returns the first node that fails, or else the first link. The pattern must have an
/// entry for each link. The answer depends on the pattern's states alone, so `sets` may be any sets. Returns `Passed` exactly at the
/// first operation of `verdict_list` (nf_thin_def/specs/Verdict.antt) that passes, with the part Verdict, even if something fails.
/// Doesn't allocate.
pub fn verdict(
    net: &Network,
    sets: &LinkSets,
    pattern: &Pattern,
    flows: &[Q],
    labels: &[Q],
) -> Result<Judged, PassedAt<Q>>
    requires states { length pattern.now ≡ length net.now.net.links }
    requires flows { length flows.now ≡ length net.now.net.links }
    requires labels { length labels.now ≡ net.now.net.nodes }
    ensures { Judges (IsJudged net.now.net pattern.now flows.now labels.now)
        (at_part Verdict (verdict_list passes_Q net.now.net pattern.now labels.now)) result }
{
    // The pattern's states say which links are judged.
    let _ = sets;
    let failing = first_failing(net, pattern, flows, labels)?;
    match first_negative(net, labels) {
        Some(node) => Ok(Judged::FailsNode(node)),
        None => match failing {
            Some(link) => Ok(Judged::FailsLink(link)),
            None => Ok(Judged::Meets),
        },
    }
}
