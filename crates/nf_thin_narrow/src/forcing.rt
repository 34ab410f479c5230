// The states that slopes force. If the slopes of a link's ends differ, only one state is possible.
ghost use Rattle.std.specs.Prelude.{◌≡◌, length, IfOk};
ghost use Rattle.nf_thin_laws.specs.Forcing.{forced_state as forced_state_of, forced_by as forced_by_of};

use nf_frac::Q;
use nf_graph::LinkId;
use nf_model::State;
use nf_net::Network;
use nf_pattern::Pattern;
use std::alloc::{AllocError, Global};

// Returns Full if the head's slope is greater, and Zero if it is smaller. Returns `None` if the slopes are equal or the link has no state.
fn forced_state(base: Option<State>, tail_slope: Q, head_slope: Q) -> Option<State>
    ensures { result ≡ forced_state_of base tail_slope head_slope }
{
    if base.is_none() {
        return None;
    }
    if tail_slope.is_below(head_slope) {
        return Some(State::Full);
    }
    if head_slope.is_below(tail_slope) {
        return Some(State::Zero);
    }
    None
}

/// Returns the states that these slopes of the nodes force, for the links with a state in the base. Fails if an allocation fails.
pub fn forced_by(
    alloc: Global,
    net: &Network,
    slopes: &[Q],
    base: &Pattern,
) -> Result<Pattern, AllocError>
    requires slopes { length slopes.now ≡ net.now.net.nodes }
    requires base { length base.now ≡ length net.now.net.links }
    ensures { IfOk result (λ forced. forced ≡ forced_by_of net.now.net slopes.now base.now) }
{
    let mut forced = Pattern::none(alloc, net.link_count())?;
    for e in 0..net.link_count() {
        let link = net.link(LinkId(e));
        let tail_slope = slopes[link.tail.index()];
        let head_slope = slopes[link.head.index()];
        let state = forced_state(base.state(LinkId(e)), tail_slope, head_slope);
        forced.set(LinkId(e), state);
    }
    Ok(forced)
}
