// Assignments of states to links, ordered by the number of links that differ from a base, and then link by link.
ghost use Rattle.std.specs.Prelude.{◌≡◌, ◌^◌, ◌<◌, ◌≤◌, ◌++◌, length, take, drop, Some};
ghost use Rattle.nf_model.specs.Pattern.{changes as changes_of};
ghost use Rattle.nf_pattern.specs.Successor.{IsAssignment, free, earliest, IsQuiet};

use crate::choice::{change, first_choice, next_choice};
use crate::stated::StatedLinks;
use nf_model::State;

// The unchanged suffix of an assignment. The links from `link` on equal the base, and `free` of them may differ from it.
#[derive(Clone, Copy)]
pub(crate) struct Quiet {
    pub(crate) link: usize,
    pub(crate) free: u32,
}

// A step to a later assignment: the links before `link` keep their states, and `quiet` is the new unchanged suffix.
#[derive(Clone, Copy)]
pub(crate) struct Raised {
    pub(crate) link: usize,
    pub(crate) quiet: Quiet,
}

// Copies the base's states to the links from `link` on.
fn copy_rest(states: &mut [Option<State>], base: &[Option<State>], link: usize)
    requires states { length states.old ≡ length base.now }
    requires link { link ≤ length base.now }
    ensures { states.new ≡ take link states.old ++ drop link base.now }
{
    states[link..].copy_from_slice(&base[link..]);
}

// Sets `states` to the earliest assignment with `changes` changes, and returns its unchanged suffix. `more` links may differ from the base.
fn fill(
    states: &mut [Option<State>],
    base: &[Option<State>],
    unbounded: &[bool],
    changes: u32,
    more: u32,
) -> Quiet
    requires states { length states.old ≡ length base.now }
    requires unbounded { length unbounded.now ≡ length base.now }
    requires valid { IsAssignment base.now unbounded.now base.now }
    requires free { more ≡ free base.now }
    requires changes { changes ≤ more }
    ensures filled { earliest base.now unbounded.now changes ≡ Some states.new }
    ensures quiet { IsQuiet base.now result states.new }
{
    let mut left = changes;
    let mut later = more;
    for i in 0..base.len() {
        if left == 0 {
            copy_rest(states, base, i);
            return Quiet {
                link: i,
                free: later,
            };
        }
        let link = base[i];
        if link.is_none() {
            states[i] = None;
            continue;
        }
        later = later.saturating_sub(change(None, link));
        if let Some(state) = first_choice(link, unbounded[i], left, later) {
            states[i] = state;
            left -= change(link, state);
        }
    }
    Quiet {
        link: base.len(),
        free: 0,
    }
}

// Returns how many links differ from the base.
fn count_changes(base: &[Option<State>], states: &[Option<State>]) -> u32
    requires states { length states.now ≡ length base.now }
    requires fewer { length base.now < 2 ^ 32 }
    ensures changes { result ≡ changes_of base.now states.now }
    ensures few { result ≤ length base.now }
{
    let mut count = 0;
    for i in 0..base.len() {
        count += change(base[i], states[i]);
    }
    count
}

// Returns how many links may differ from the base: those with a state in it.
fn count_free(base: &[Option<State>]) -> u32
    requires { length base.now < 2 ^ 32 }
    ensures free { result ≡ free base.now }
    ensures few { result ≤ length base.now }
{
    let mut count = 0;
    for i in 0..base.len() {
        count += change(None, base[i]);
    }
    count
}

// A borrowed view of what the order of assignments depends on: the base, with a flag for each link that is unbounded, and the index of the
// links that have a state in the base. No link flagged in `sole` is raised to Zero.
#[derive(Clone, Copy)]
pub(crate) struct Order<'a> {
    pub(crate) base: &'a [Option<State>],
    pub(crate) unbounded: &'a [bool],
    pub(crate) sole: &'a [bool],
    pub(crate) stated: &'a StatedLinks,
}

impl<'a> Order<'a> {
    ghost use Rattle.std.specs.Prelude.{◌≡◌, ◌<◌, suc, length, drop, Some, None, MatchOption};
    ghost use Rattle.nf_model.specs.Pattern.{changes as changes_of};
    ghost use Rattle.nf_pattern.specs.Successor.{free, raised_at, RaisesAt, later, next_assignment, IsSameBefore, IsQuiet};
    ghost use Rattle.nf_pattern.specs.Ordered.{IsStateOrder, MayRaise};

    // Gives `link` its next state to which it may be raised, such that exactly `changes` links from `link` on can differ from the base.
    // Sets the links after it to the earliest such states, and returns the unchanged suffix. Returns `None`, and changes nothing, if there
    // is no such state. `more` of the links after `link` may differ from the base.
    fn raise_at(
        &self,
        states: &mut [Option<State>],
        link: usize,
        changes: u32,
        more: u32,
    ) -> Option<Quiet>
        requires link { link < length self.now.base.now }
        requires states { length states.old ≡ length self.now.base.now }
        requires order { IsStateOrder self.now }
        requires free { more ≡ free (drop (suc link) self.now.base.now) }
        ensures { MatchOption result ((raised_at self.now.base.now self.now.unbounded.now
            self.now.sole.now states.old link changes ≡ None) × (states.new ≡ states.old))
            (λ quiet. RaisesAt self.now.base.now self.now.unbounded.now self.now.sole.now
            states.old link changes states.new × IsQuiet self.now.base.now quiet states.new) }
    {
        let first = self.base[link];
        let unbounded = self.unbounded[link];
        match next_choice(
            first,
            unbounded,
            self.sole[link],
            states[link],
            changes,
            more,
        ) {
            None => None,
            Some(state) => {
                states[link] = state;
                let left = changes - change(first, state);
                let after = link + 1;
                let quiet = fill(
                    &mut states[after..],
                    &self.base[after..],
                    &self.unbounded[after..],
                    left,
                    more,
                );
                Some(Quiet {
                    link: after + quiet.link,
                    free: quiet.free,
                })
            }
        }
    }

    // Sets `states` to the next assignment with equally many changes that differs at one of the first `same` links. Returns `None`, and
    // changes nothing, if there is none. From `same` on, `changes` links differ from the base and `more` may differ.
    fn raise_from(
        &self,
        states: &mut [Option<State>],
        same: usize,
        changes: u32,
        more: u32,
    ) -> Option<Raised>
        requires may { MayRaise self.now same states.old }
        requires counted { changes
            ≡ changes_of (drop same self.now.base.now) (drop same states.old) }
        requires free { more ≡ free (drop same self.now.base.now) }
        ensures { MatchOption result ((later same self.now.base.now self.now.unbounded.now
            self.now.sole.now states.old ≡ None) × (states.new ≡ states.old))
            (λ raised. (later same self.now.base.now self.now.unbounded.now self.now.sole.now
            states.old ≡ Some states.new)
            × IsSameBefore same raised.link states.old states.new
            × IsQuiet self.now.base.now raised.quiet states.new) }
    {
        let mut changes = changes;
        let mut more = more;
        let mut i = same;
        while i > 0 {
            i = self.stated.up_to(i - 1);
            changes += change(self.base[i], states[i]);
            if let Some(quiet) = self.raise_at(states, i, changes, more) {
                return Some(Raised { link: i, quiet });
            }
            more += change(None, self.base[i]);
        }
        None
    }

    // Sets `states` to the next assignment with equally many changes that differs at one of the first `same` links. Returns `None`, and
    // changes nothing, if there is none. Skips the unchanged suffix, since no link in it can be raised.
    fn raise(&self, states: &mut [Option<State>], same: usize, quiet: Quiet) -> Option<Raised>
        requires may { MayRaise self.now same states.old }
        requires quiet { IsQuiet self.now.base.now quiet states.old }
        ensures { MatchOption result ((later same self.now.base.now self.now.unbounded.now
            self.now.sole.now states.old ≡ None) × (states.new ≡ states.old))
            (λ raised. (later same self.now.base.now self.now.unbounded.now self.now.sole.now
            states.old ≡ Some states.new)
            × IsSameBefore same raised.link states.old states.new
            × IsQuiet self.now.base.now raised.quiet states.new) }
    {
        if quiet.link <= same {
            self.raise_from(states, quiet.link, 0, quiet.free)
        } else {
            let changes = count_changes(&self.base[same..quiet.link], &states[same..quiet.link]);
            let more = count_free(&self.base[same..quiet.link]) + quiet.free;
            self.raise_from(states, same, changes, more)
        }
    }

    // Sets `states` to the next assignment with equally many changes that differs at one of the first `same` links. If there is none, sets
    // them to the earliest assignment with one change more. Returns `None`, and changes nothing, if there is neither.
    pub(crate) fn advance(
        &self,
        states: &mut [Option<State>],
        same: usize,
        quiet: Quiet,
    ) -> Option<Raised>
        requires may { MayRaise self.now same states.old }
        requires quiet { IsQuiet self.now.base.now quiet states.old }
        ensures { MatchOption result
            ((next_assignment same self.now.base.now self.now.unbounded.now self.now.sole.now
            states.old ≡ None) × (states.new ≡ states.old))
            (λ raised. (next_assignment same self.now.base.now self.now.unbounded.now
            self.now.sole.now states.old ≡ Some states.new)
            × IsSameBefore same raised.link states.old states.new
            × IsQuiet self.now.base.now raised.quiet states.new) }
    {
        if let Some(raised) = self.raise(states, same, quiet) {
            return Some(raised);
        }
        let changes = count_changes(self.base, states);
        let more = count_free(self.base);
        if changes >= more {
            return None;
        }
        let quiet = fill(states, self.base, self.unbounded, changes + 1, more);
        Some(Raised { link: 0, quiet })
    }
}
