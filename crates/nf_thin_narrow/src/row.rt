// Rows of counts. Entry k is the number of assignments of states to the links from some link on with exactly k changes from the base.
ghost use Rattle.std.specs.Prelude.{◌≡◌, ◌<◌, ◌≤◌, ◌^◌, ℕ, suc, Bool, min, length, IfOk};
ghost use Rattle.nf_model.specs.Pattern.{changes as changes_of};
ghost use Rattle.nf_thin_laws.specs.Forcing.{change as change_of};
ghost use Rattle.nf_thin_laws.specs.Ways.{left_ways, ways_by, ways_below, ways, ways_earlier, states_of, choices_of, ways_before as ways_before_of};
ghost use Rattle.nf_thin_narrow.specs.Rows.{most, count_at, CountsCapped, first_ways, none_left};

use nf_graph::LinkId;
use nf_model::State;
use nf_pattern::{Pattern, rank};
use std::alloc::{AllocError, Global};

// Returns 1 if the state differs from the base state, and 0 otherwise.
pub(crate) fn change(base: Option<State>, state: Option<State>) -> usize
    ensures value { result ≡ change_of base state }
    ensures small { result ≤ 1 }
{
    if rank(base) == rank(state) { 0 } else { 1 }
}

// Returns how many assignments have exactly `changes` changes if the link has this state.
pub(crate) fn ways_with(
    row: &[u64],
    base: Option<State>,
    state: Option<State>,
    changes: usize,
) -> u64
    requires { changes < length row.now }
    ensures { result ≡ left_ways (change_of base state) (count_at row.now) changes }
{
    if change(base, state) == 0 {
        return row[changes];
    }
    if changes == 0 { 0 } else { row[changes - 1] }
}

// Returns how many assignments have exactly `changes` changes and any state that the link may have, capped at 2^64 - 1.
fn ways_at(row: &[u64], base: Option<State>, unbounded: bool, sole: bool, changes: usize) -> u64
    requires { changes < length row.now }
    ensures { result
        ≡ min (ways_by (states_of base unbounded sole) base (count_at row.now) changes) most }
{
    if base.is_none() {
        return ways_with(row, base, None, changes);
    }
    let tight = ways_with(row, base, Some(State::Tight), changes);
    let full = if unbounded {
        0
    } else {
        ways_with(row, base, Some(State::Full), changes)
    };
    let zero = if sole {
        0
    } else {
        ways_with(row, base, Some(State::Zero), changes)
    };
    tight.saturating_add(full).saturating_add(zero)
}

// Returns how many assignments have exactly `changes` changes and a possible state before `state`, capped at 2^64 - 1.
fn ways_under(
    row: &[u64],
    base: Option<State>,
    unbounded: bool,
    state: Option<State>,
    changes: usize,
) -> u64
    requires { changes < length row.now }
    ensures { (sole : Bool) → result ≡ min
        (ways_below (states_of base unbounded sole) base state (count_at row.now) changes) most }
{
    let rank = rank(state);
    if base.is_none() {
        return if rank == 0 {
            0
        } else {
            ways_with(row, base, None, changes)
        };
    }
    let tight = if rank <= 1 {
        0
    } else {
        ways_with(row, base, Some(State::Tight), changes)
    };
    let full = if rank <= 2 || unbounded {
        0
    } else {
        ways_with(row, base, Some(State::Full), changes)
    };
    tight.saturating_add(full)
}

// Extends the row by one link, before the links that it counts.
fn add_link(row: &mut [u64], base: Option<State>, unbounded: bool, sole: bool)
    ensures count { length row.new ≡ length row.old }
    ensures ways { (k : ℕ) → k < length row.old
        → count_at row.new k
        ≡ min (ways_by (states_of base unbounded sole) base (count_at row.old) k) most }
{
    let mut k = row.len();
    while k > 0 {
        k -= 1;
        row[k] = ways_at(row, base, unbounded, sole, k);
    }
}

/// Returns how many links differ from the base.
pub fn count_changes(base: &Pattern, pattern: &Pattern, links: u32) -> usize
    requires base { length base.now ≡ links }
    requires pattern { length pattern.now ≡ links }
    ensures changes { result ≡ changes_of base.now pattern.now }
    ensures few { result ≤ links }
{
    let mut count = 0;
    for e in 0..links {
        let link = LinkId(e);
        count += change(base.state(link), pattern.state(link));
    }
    count
}

// Returns the sum of the first `count` entries, capped at 2^64 - 1.
pub(crate) fn sum_of(row: &[u64], count: usize) -> u64
    requires { count ≤ length row.now }
    ensures { (ways : ℕ → ℕ) → CountsCapped row.now ways → result ≡ min (first_ways ways count) most }
{
    let mut sum = 0u64;
    for k in 0..count {
        sum = sum.saturating_add(row[k]);
    }
    sum
}

// Returns how many assignments with as many changes as the pattern are earlier link by link, capped at 2^64 - 1. The row counts no link at
// first and all links at the end.
fn count_earlier(
    row: &mut [u64],
    base: &Pattern,
    pattern: &Pattern,
    unbounded: &[bool],
    sole: &[bool],
) -> u64
    requires start { CountsCapped row.old none_left }
    requires changes { length row.old ≡ suc (changes_of base.now pattern.now) }
    requires pattern { length pattern.now ≡ length base.now }
    requires unbounded { length unbounded.now ≡ length base.now }
    requires sole { length sole.now ≡ length base.now }
    requires fewer { length base.now < 2 ^ 32 }
    ensures count { length row.new ≡ length row.old }
    ensures ways { CountsCapped row.new (ways (choices_of base.now unbounded.now sole.now) base.now) }
    ensures earlier { let choices = choices_of base.now unbounded.now sole.now in
        result
        ≡ min (ways_earlier choices base.now pattern.now (changes_of base.now pattern.now)) most }
{
    let mut earlier = 0u64;
    let mut made = 0;
    let mut e = unbounded.len();
    while e > 0 {
        e -= 1;
        let link = LinkId(e as u32);
        let here = base.state(link);
        let state = pattern.state(link);
        made += change(here, state);
        let under = ways_under(row, here, unbounded[e], state, made);
        earlier = earlier.saturating_add(under);
        add_link(row, here, unbounded[e], sole[e]);
    }
    earlier
}

// Returns the row of no links: one assignment with no change. Fails if an allocation fails.
pub(crate) fn first_row(alloc: Global, changes: usize) -> Result<Vec<u64>, AllocError>
    requires { changes < 2 ^ 32 }
    ensures count { IfOk result (λ row. length row.items ≡ suc changes) }
    ensures ways { IfOk result (λ row. CountsCapped row.items none_left) }
{
    let mut row = vec![in alloc; 0u64; changes + 1]?;
    row[0] = 1;
    Ok(row)
}

/// Returns how many assignments of states to links come before a pattern, capped at 2^64 - 1. They differ from the base at fewer links, or
/// at equally many and are earlier link by link. An unbounded link is never Full, and a link flagged in `sole` never Zero. Fails if an
/// allocation fails.
pub fn ways_before(
    alloc: Global,
    base: &Pattern,
    pattern: &Pattern,
    unbounded: &[bool],
    sole: &[bool],
) -> Result<u64, AllocError>
    requires pattern { length pattern.now ≡ length base.now }
    requires unbounded { length unbounded.now ≡ length base.now }
    requires sole { length sole.now ≡ length base.now }
    requires fewer { length base.now < 2 ^ 32 }
    ensures { IfOk result (λ ways. ways ≡ min
        (ways_before_of (choices_of base.now unbounded.now sole.now) base.now pattern.now) most) }
{
    let links = unbounded.len();
    let changes = count_changes(base, pattern, links as u32);
    let mut row = first_row(alloc, changes)?;
    let earlier = count_earlier(&mut row, base, pattern, unbounded, sole);
    Ok(sum_of(&row, changes).saturating_add(earlier))
}
