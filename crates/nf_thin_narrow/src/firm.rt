// The number of assignments of freely combinable states that come before a pattern.
ghost use Rattle.std.specs.Prelude.{◌≡◌, ◌<◌, ◌^◌, ℕ, suc, min, length, IfOk, if◌then◌else◌, Some};
ghost use Rattle.nf_model.specs.Pattern.{changes as changes_of};
ghost use Rattle.nf_thin_laws.specs.Forcing.{change as change_of};
ghost use Rattle.nf_thin_laws.specs.Ways.{left_ways, ways_by, ways_below, ways};
ghost use Rattle.nf_thin_laws.specs.Firm.{is_in, firm_earlier, firm_before};
ghost use Rattle.nf_thin_narrow.specs.Rows.{most, count_at, CountsCapped, none_left};
ghost use Rattle.nf_thin_narrow.specs.Firming.{states_of_firm, firm_choices};

use crate::row::{change, count_changes, first_row, sum_of, ways_with};
use nf_graph::LinkId;
use nf_model::State;
use nf_pattern::{Pattern, rank};
use std::alloc::{AllocError, Global};

/// The combinable states of a link with a state in the base. Every combination of such states, one for each link, counts as an assignment.
#[derive(Clone, Copy)]
pub struct Firm {
    pub tight: bool,
    pub full: bool,
    pub zero: bool,
}

// Returns how many assignments have exactly `changes` changes and this state, or 0 if the link may not have it.
fn ways_if(row: &[u64], base: Option<State>, allowed: bool, state: State, changes: usize) -> u64
    requires { changes < length row.now }
    ensures { result ≡ (if allowed then left_ways (change_of base (Some state))
        (count_at row.now) changes else 0) }
{
    if allowed {
        ways_with(row, base, Some(state), changes)
    } else {
        0
    }
}

// Returns how many assignments have exactly `changes` changes and any of the link's combinable states, capped at 2^64 - 1.
fn firm_at(row: &[u64], base: Option<State>, firm: Firm, changes: usize) -> u64
    requires { changes < length row.now }
    ensures { result
        ≡ min (ways_by (states_of_firm base firm) base (count_at row.now) changes) most }
{
    if base.is_none() {
        return ways_with(row, base, None, changes);
    }
    let tight = ways_if(row, base, firm.tight, State::Tight, changes);
    let full = ways_if(row, base, firm.full, State::Full, changes);
    let zero = ways_if(row, base, firm.zero, State::Zero, changes);
    tight.saturating_add(full).saturating_add(zero)
}

// Returns how many assignments have exactly `changes` changes and a combinable state before `state`, capped at 2^64 - 1.
fn firm_under(
    row: &[u64],
    base: Option<State>,
    firm: Firm,
    state: Option<State>,
    changes: usize,
) -> u64
    requires { changes < length row.now }
    ensures { result
        ≡ min (ways_below (states_of_firm base firm) base state (count_at row.now) changes) most }
{
    let rank = rank(state);
    if base.is_none() {
        return if rank == 0 {
            0
        } else {
            ways_with(row, base, None, changes)
        };
    }
    let tight = ways_if(row, base, rank > 1 && firm.tight, State::Tight, changes);
    let full = ways_if(row, base, rank > 2 && firm.full, State::Full, changes);
    tight.saturating_add(full)
}

// Returns whether `state` is one of the link's combinable states.
fn may_have(base: Option<State>, firm: Firm, state: Option<State>) -> bool
    ensures { result ≡ is_in (states_of_firm base firm) state }
{
    if base.is_none() {
        return state.is_none();
    }
    match state {
        None => false,
        Some(State::Tight) => firm.tight,
        Some(State::Full) => firm.full,
        Some(State::Zero) => firm.zero,
    }
}

// Returns how many earlier assignments agree with the pattern at this link: `earlier` if the link may have its state, and 0 otherwise.
fn along(may_have: bool, earlier: u64) -> u64
    ensures { result ≡ (if may_have then earlier else 0) }
{
    if may_have { earlier } else { 0 }
}

// Extends the row by one link, before the links that it counts.
fn add_firm(row: &mut [u64], base: Option<State>, firm: Firm)
    ensures count { length row.new ≡ length row.old }
    ensures ways { (k : ℕ) → k < length row.old
        → count_at row.new k
        ≡ min (ways_by (states_of_firm base firm) base (count_at row.old) k) most }
{
    let mut k = row.len();
    while k > 0 {
        k -= 1;
        row[k] = firm_at(row, base, firm, k);
    }
}

// Returns how many assignments of combinable states with as many changes as the pattern are earlier link by link, capped at 2^64 - 1. The
// row counts no link at first and all links at the end.
fn earlier_firm(row: &mut [u64], base: &Pattern, pattern: &Pattern, firm: &[Firm]) -> u64
    requires start { CountsCapped row.old none_left }
    requires changes { length row.old ≡ suc (changes_of base.now pattern.now) }
    requires pattern { length pattern.now ≡ length base.now }
    requires firm { length firm.now ≡ length base.now }
    requires fewer { length base.now < 2 ^ 32 }
    ensures count { length row.new ≡ length row.old }
    ensures ways { CountsCapped row.new (ways (firm_choices base.now firm.now) base.now) }
    ensures earlier { result ≡ min (firm_earlier (firm_choices base.now firm.now) base.now
        pattern.now (changes_of base.now pattern.now)) most }
{
    let mut earlier = 0u64;
    let mut made = 0;
    let mut e = firm.len();
    while e > 0 {
        e -= 1;
        let link = LinkId(e as u32);
        let here = base.state(link);
        let state = pattern.state(link);
        made += change(here, state);
        let under = firm_under(row, here, firm[e], state, made);
        let same = along(may_have(here, firm[e], state), earlier);
        earlier = same.saturating_add(under);
        add_firm(row, here, firm[e]);
    }
    earlier
}

/// Returns how many assignments of freely combinable states come before a pattern, capped at 2^64 - 1. They differ from the base at fewer
/// links, or at equally many and are earlier link by link. Fails if an allocation fails.
pub fn firm_ways_before(
    alloc: Global,
    base: &Pattern,
    pattern: &Pattern,
    firm: &[Firm],
) -> Result<u64, AllocError>
    requires pattern { length pattern.now ≡ length base.now }
    requires firm { length firm.now ≡ length base.now }
    requires fewer { length base.now < 2 ^ 32 }
    ensures { IfOk result (λ ways. ways
        ≡ min (firm_before (firm_choices base.now firm.now) base.now pattern.now) most) }
{
    let links = firm.len();
    let changes = count_changes(base, pattern, links as u32);
    let mut row = first_row(alloc, changes)?;
    let earlier = earlier_firm(&mut row, base, pattern, firm);
    Ok(sum_of(&row, changes).saturating_add(earlier))
}
