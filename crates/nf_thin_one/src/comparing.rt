// Whether two patterns are one.
ghost use Rattle.std.specs.Prelude.{◌≡◌, length, IsTrue};

use nf_graph::LinkId;
use nf_model::State;
use nf_net::Network;
use nf_pattern::Pattern;

// Returns whether two links have the same state, or neither has a state. The contract promises nothing about `false`.
fn is_one_state(one: Option<State>, other: Option<State>) -> bool
    ensures { IsTrue result → one ≡ other }
{
    one == other
}

/// Returns whether two patterns have the same state at each link. The contract promises nothing about `false`.
pub fn is_one_pattern(net: &Network, one: &Pattern, other: &Pattern) -> bool
    requires one { length one.now ≡ length net.now.net.links }
    requires other { length other.now ≡ length net.now.net.links }
    ensures { IsTrue result → one.now ≡ other.now }
{
    for e in 0..net.link_count() {
        let link = LinkId(e);
        if !is_one_state(one.state(link), other.state(link)) {
            return false;
        }
    }
    true
}
