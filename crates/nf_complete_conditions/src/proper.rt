// Conditions of a thin flow without operations.
ghost use Rattle.std.specs.Prelude.{◌≡◌, ◌<◌, not, length, MatchBool};
ghost use Rattle.nf_rational.specs.Operations.{0ℚ, 1ℚ};
ghost use Rattle.nf_rational.specs.Order.{le_ℚ};
ghost use Rattle.nf_model.specs.Entries.{number_at};
ghost use Rattle.nf_complete_conditions.specs.ThinParts.{AllNonNegative, CarriesIfActive, CarriesOnActive, IsProper};

use crate::numbers::{flow_of, slope_of};
use crate::taken::each_is_taken;
use nf_frac::Q;
use nf_graph::{LinkId, LinkSets};
use nf_net::Network;

// Returns whether the number at an index is negative.
fn is_negative_at(numbers: &[Q], place: usize) -> bool
    requires { place < length numbers.now }
    ensures { result ≡ not (le_ℚ 0ℚ (number_at numbers.now place)) }
{
    !Q::zero().is_at_most(numbers[place])
}

// Returns whether no number is negative.
fn none_negative(numbers: &[Q]) -> bool
    ensures { MatchBool result (AllNonNegative numbers.now) (AllNonNegative numbers.now → ⊥) }
{
    for i in 0..numbers.len() {
        if is_negative_at(numbers, i) {
            return false;
        }
    }
    true
}

// Returns whether the link is active or carries no flow.
fn carries_if_active(sets: &LinkSets, flows: &[Q], link: LinkId) -> bool
    requires link { link < length sets.now.active }
    requires flows { length flows.now ≡ length sets.now.active }
    ensures { MatchBool result (CarriesIfActive sets.now flows.now link)
        (CarriesIfActive sets.now flows.now link → ⊥) }
{
    if sets.active(link) {
        return true;
    }
    flow_of(flows, link).is_same(Q::zero())
}

// Returns whether only active links carry flow.
fn carries_on_active(net: &Network, sets: &LinkSets, flows: &[Q]) -> bool
    requires sets { length sets.now.active ≡ length net.now.net.links }
    requires flows { length flows.now ≡ length net.now.net.links }
    ensures { MatchBool result (CarriesOnActive sets.now flows.now)
        (CarriesOnActive sets.now flows.now → ⊥) }
{
    for e in 0..net.link_count() {
        if !carries_if_active(sets, flows, LinkId(e)) {
            return false;
        }
    }
    true
}

// Returns whether the slope of the source is 1.
fn starts(net: &Network, slopes: &[Q]) -> bool
    requires { length slopes.now ≡ net.now.net.nodes }
    ensures { MatchBool result (number_at slopes.now net.now.net.source ≡ 1ℚ)
        (number_at slopes.now net.now.net.source ≡ 1ℚ → ⊥) }
{
    slope_of(slopes, net.source()).is_same(Q::one())
}

/// Returns whether all these conditions hold. No flow or slope is negative. Only active links carry flow. The slope of the source is 1.
/// Each other node takes its slope from a link.
pub fn is_proper(net: &Network, sets: &LinkSets, flows: &[Q], slopes: &[Q]) -> bool
    requires sets { length sets.now.active ≡ length net.now.net.links }
    requires flows { length flows.now ≡ length net.now.net.links }
    requires slopes { length slopes.now ≡ net.now.net.nodes }
    ensures { MatchBool result (IsProper net.now.net sets.now flows.now slopes.now)
        (IsProper net.now.net sets.now flows.now slopes.now → ⊥) }
{
    if !none_negative(flows) {
        return false;
    }
    if !none_negative(slopes) {
        return false;
    }
    if !carries_on_active(net, sets, flows) {
        return false;
    }
    if !starts(net, slopes) {
        return false;
    }
    each_is_taken(net, sets, flows, slopes)
}
