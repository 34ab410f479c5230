// The choice of one link's state.
ghost use Rattle.std.specs.Prelude.{◌≡◌, ◌≤◌, ◌&&◌, nat_lt};
ghost use Rattle.nf_model.specs.Pattern.{rank as rank_of};
ghost use Rattle.nf_pattern.specs.Successor.{change as change_of, fits_count as is_fit, choices, first_good, may_raise};

use nf_model::State;

/// Returns the rank of a state: 0 for no state, 1 for Tight, 2 for Full, 3 for Zero.
pub fn rank(state: Option<State>) -> u32
    ensures { result ≡ rank_of state }
{
    match state {
        None => 0,
        Some(State::Tight) => 1,
        Some(State::Full) => 2,
        Some(State::Zero) => 3,
    }
}

// Returns 1 if the link's state differs from its base state, and 0 otherwise.
pub(crate) fn change(base: Option<State>, state: Option<State>) -> u32
    ensures value { result ≡ change_of base state }
    ensures small { result ≤ 1 }
{
    if rank(base) == rank(state) { 0 } else { 1 }
}

// Returns whether exactly `changes` links from this one on can differ from the base, given `state` here and at most `more` later changes.
fn fits(base: Option<State>, changes: u32, more: u32, state: Option<State>) -> bool
    ensures { result ≡ is_fit base changes more state }
{
    let change = change(base, state);
    change <= changes && changes - change <= more
}

// Returns the link's first choice that fits.
pub(crate) fn first_choice(
    base: Option<State>,
    unbounded: bool,
    changes: u32,
    more: u32,
) -> Option<Option<State>>
    ensures { result ≡ first_good (is_fit base changes more) (choices base unbounded) }
{
    if base.is_none() {
        return if fits(base, changes, more, None) {
            Some(None)
        } else {
            None
        };
    }
    if fits(base, changes, more, Some(State::Tight)) {
        return Some(Some(State::Tight));
    }
    if !unbounded && fits(base, changes, more, Some(State::Full)) {
        return Some(Some(State::Full));
    }
    if fits(base, changes, more, Some(State::Zero)) {
        return Some(Some(State::Zero));
    }
    None
}

// Returns whether `state` comes after the link's present state and fits.
fn fits_after(
    base: Option<State>,
    now: Option<State>,
    changes: u32,
    more: u32,
    state: Option<State>,
) -> bool
    ensures { result ≡ (nat_lt (rank_of now) (rank_of state) && is_fit base changes more state) }
{
    rank(now) < rank(state) && fits(base, changes, more, state)
}

// Returns the link's first choice that comes after its present state, is not barred and fits. Zero is barred if `sole`.
pub(crate) fn next_choice(
    base: Option<State>,
    unbounded: bool,
    sole: bool,
    now: Option<State>,
    changes: u32,
    more: u32,
) -> Option<Option<State>>
    ensures { result ≡ first_good (λ s. may_raise sole s && (nat_lt (rank_of now) (rank_of s)
        && is_fit base changes more s)) (choices base unbounded) }
{
    if base.is_none() {
        return if fits_after(base, now, changes, more, None) {
            Some(None)
        } else {
            None
        };
    }
    if fits_after(base, now, changes, more, Some(State::Tight)) {
        return Some(Some(State::Tight));
    }
    if !unbounded && fits_after(base, now, changes, more, Some(State::Full)) {
        return Some(Some(State::Full));
    }
    if !sole && fits_after(base, now, changes, more, Some(State::Zero)) {
        return Some(Some(State::Zero));
    }
    None
}
