// The rank of a listed pattern and a budget, by enumeration of the listing.
ghost use Rattle.std.specs.Prelude.{◌≡◌, ◌<◌, true, length, IfSome, MatchBool, MatchOption};
ghost use Rattle.nf_pattern.specs.Given.{IsQuestion, IsListedBy};
ghost use Rattle.nf_thin_narrow.specs.Asking.{StandsWithin, IsBehind, StandsAt};

use nf_graph::LinkId;
use nf_model::State;
use nf_pattern::{Pattern, Patterns};

// Returns whether two states are equal.
fn is_one_state(one: Option<State>, other: Option<State>) -> bool
    ensures { MatchBool result (one ≡ other) (one ≡ other → ⊥) }
{
    match one {
        None => other.is_none(),
        Some(State::Tight) => matches!(other, Some(State::Tight)),
        Some(State::Full) => matches!(other, Some(State::Full)),
        Some(State::Zero) => matches!(other, Some(State::Zero)),
    }
}

// Returns whether two patterns have different states at a link.
fn differ_at(one: &Pattern, other: &Pattern, link: LinkId) -> bool
    requires one { link < length one.now }
    requires other { link < length other.now }
    ensures { result ≡ true → one.now ≡ other.now → ⊥ }
{
    !is_one_state(one.state(link), other.state(link))
}

// Returns the first link at which two patterns have different states. Returns `None` if the patterns are equal.
fn first_other(one: &Pattern, other: &Pattern, links: u32) -> Option<LinkId>
    requires one { length one.now ≡ links }
    requires other { length other.now ≡ links }
    ensures { MatchOption result (one.now ≡ other.now)
        (λ link. (link < links) × (one.now ≡ other.now → ⊥)) }
{
    for e in 0..links {
        let link = LinkId(e);
        if !is_one_state(one.state(link), other.state(link)) {
            return Some(link);
        }
    }
    None
}

// Returns a link at which two patterns have different states: `last` if they differ there, and otherwise the first one. Returns `None` if
// the patterns are equal.
fn other_link(one: &Pattern, other: &Pattern, last: Option<LinkId>, links: u32) -> Option<LinkId>
    requires one { length one.now ≡ links }
    requires other { length other.now ≡ links }
    requires last { IfSome last (λ link. link < links) }
    ensures { MatchOption result (one.now ≡ other.now)
        (λ link. (link < links) × (one.now ≡ other.now → ⊥)) }
{
    if let Some(link) = last {
        if differ_at(one, other, link) {
            return last;
        }
    }
    first_other(one, other, links)
}

/// Enumerates a listing up to a pattern or the end of the budget. Returns whether the pattern is one of the first `budget` patterns. The
/// pattern must be later than the patterns enumerated before.
pub fn goes_on_to(patterns: &mut Patterns, pattern: &Pattern, budget: u64, links: u32) -> bool
    requires question { IsQuestion patterns.old.question }
    requires links { length patterns.old.question.hops ≡ links }
    requires pattern { length pattern.now ≡ links }
    requires behind { IsBehind patterns.old.question patterns.old pattern.now }
    ensures within { StandsWithin patterns.old.question pattern.now budget result }
    ensures stands { result ≡ true → IsListedBy patterns.old.question pattern.now
        → StandsAt patterns.old.question patterns.new pattern.now }
{
    // A listed pattern mostly differs from this one at the same link as the listed pattern before.
    let mut last = None;
    while patterns.place() < budget {
        let Some(listed) = patterns.next() else {
            return true;
        };
        let other = other_link(listed, pattern, last, links);
        let Some(link) = other else {
            return true;
        };
        last = Some(link);
    }
    false
}
