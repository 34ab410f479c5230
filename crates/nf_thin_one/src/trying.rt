// One pattern is tried: its table is solved, and the solution judged.
ghost use Rattle.std.specs.Prelude.{◌≡◌, ℕ, ◌+◌, ◌≤◌, length, option_map, Ok, IfOk, IfSome};
ghost use Rattle.nf_frac_def.specs.declared.Part.TheVariants as Part;
ghost use Rattle.nf_frac_def.specs.Passing.{passes_Q};
ghost use Rattle.nf_frac_def.specs.Checked.{at_part, Gives};
ghost use Rattle.nf_model.specs.Entries.{Has};
ghost use Rattle.nf_model.specs.Network.{unbounded};
ghost use Rattle.nf_model.specs.Pattern.{IsPattern};
ghost use Rattle.nf_thin_laws.specs.ActiveLinks.{AreSets};
ghost use Rattle.nf_linear_def.specs.Table.{table_list};
ghost use Rattle.nf_thin_def.specs.Verdict.{verdict_list};
ghost use Rattle.nf_thin_def.specs.Equations.{active_from, unknowns, equations, link_flows_in, slopes_in};
ghost use Rattle.nf_linear.specs.Solved.{values_of};
ghost use Rattle.nf_linear.specs.Holding.{takes_small};
ghost use Rattle.nf_thin_equation_laws.specs.Equations.{IsPatternIn};
ghost use Rattle.nf_thin_one.specs.Filling.{HoldsNumbers};
ghost use Rattle.nf_thin_one.specs.Trying.{JudgesFlows, JudgesValues, TriesOne, TriesInto};

use crate::filling::{fill, table_of, unknown_count};
use crate::small_numbers::has_small_numbers;
use crate::solving::solve_pattern;
use crate::thin::ThinFlow;
use crate::verdicts::{Judged, verdict};
use nf_frac::{Halt, PassedAt, Q, Small};
use nf_graph::{LinkId, LinkSets};
use nf_linear::{Eliminated, Solved, Table, solve, solve_small};
use nf_net::Network;
use nf_pattern::Pattern;
use std::alloc::{AllocError, Global};

/// The result of `try_pattern`, which writes flows and slopes into slices.
#[derive(Clone, Copy)]
pub enum Tried {
    /// The pattern is accepted, with the flows and slopes in the slices.
    Accepted,
    /// The pattern is not solvable.
    NotSolvable,
}

// ---- flows and slopes, from the values of a table's unknowns, and what is judged of them

// Writes the flow of each link: the next value after the slopes for an active link, and 0 for any other.
fn spread_flows(net: &Network, sets: &LinkSets, values: &[Q], flows: &mut [Q])
    requires active { length sets.now.active ≡ length net.now.net.links }
    requires values { length values.now
        ≡ net.now.net.nodes + length (active_from 0 sets.now.active) }
    requires flows { length flows.old ≡ length net.now.net.links }
    ensures { flows.new ≡ link_flows_in net.now.net.nodes sets.now.active values.now }
{
    let mut next = net.node_count() as usize;
    for e in 0..net.link_count() {
        if sets.active(LinkId(e)) {
            flows[e as usize] = values[next];
            next += 1;
        } else {
            flows[e as usize] = Q::zero();
        }
    }
}

// Returns what `spread_flows` writes. Fails if an allocation fails.
fn flows_of(
    alloc: Global,
    net: &Network,
    sets: &LinkSets,
    values: &[Q],
) -> Result<Vec<Q>, AllocError>
    requires active { length sets.now.active ≡ length net.now.net.links }
    requires values { length values.now
        ≡ net.now.net.nodes + length (active_from 0 sets.now.active) }
    ensures { IfOk result
        (λ flows. flows.items ≡ link_flows_in net.now.net.nodes sets.now.active values.now) }
{
    let mut flows = vec![in alloc; Q::zero(); net.link_count() as usize]?;
    spread_flows(net, sets, values, &mut flows);
    Ok(flows)
}

// Judges flows and slopes by the inequalities of a pattern.
fn judge(
    net: &Network,
    sets: &LinkSets,
    pattern: &Pattern,
    flows: &[Q],
    slopes: &[Q],
) -> Result<Tried, PassedAt<Q>>
    requires states { length pattern.now ≡ length net.now.net.links }
    requires flows { length flows.now ≡ length net.now.net.links }
    requires slopes { length slopes.now ≡ net.now.net.nodes }
    ensures { JudgesFlows net.now.net pattern.now flows.now slopes.now
        (at_part Part.Verdict (verdict_list passes_Q net.now.net pattern.now slopes.now)) result }
{
    match verdict(net, sets, pattern, flows, slopes)? {
        Judged::Meets => Ok(Tried::Accepted),
        Judged::FailsNode(_) => Ok(Tried::NotSolvable),
        Judged::FailsLink(_) => Ok(Tried::NotSolvable),
    }
}

// Writes the values that solve the table of a pattern as flows and slopes, and judges these.
fn judge_into(
    net: &Network,
    sets: &LinkSets,
    pattern: &Pattern,
    values: &[Q],
    flows: &mut [Q],
    slopes: &mut [Q],
) -> Result<Tried, PassedAt<Q>>
    requires pattern { IsPatternIn net.now.net sets.now pattern.now }
    requires values { length values.now
        ≡ net.now.net.nodes + length (active_from 0 sets.now.active) }
    requires flows { length flows.old ≡ length net.now.net.links }
    requires slopes { length slopes.old ≡ net.now.net.nodes }
    ensures flows { flows.new ≡ link_flows_in net.now.net.nodes sets.now.active values.now }
    ensures slopes { slopes.new ≡ slopes_in net.now.net.nodes values.now }
    ensures judged { JudgesFlows net.now.net pattern.now flows.new slopes.new
        (at_part Part.Verdict (verdict_list passes_Q net.now.net pattern.now slopes.new)) result }
{
    spread_flows(net, sets, values, flows);
    slopes.copy_from_slice(&values[..net.node_count() as usize]);
    judge(net, sets, pattern, flows, slopes)
}

/// Judges the values that solve the table of a pattern. Returns their thin flow, or `None` if the pattern is not solvable. Refuses if an
/// operation of the verdict passes, or if an allocation fails.
pub fn judge_values(
    alloc: Global,
    net: &Network,
    sets: &LinkSets,
    pattern: &Pattern,
    values: Vec<Q>,
) -> Result<Option<ThinFlow>, Halt<Q>>
    requires pattern { IsPatternIn net.now.net sets.now pattern.now }
    requires values { length values.items
        ≡ net.now.net.nodes + length (active_from 0 sets.now.active) }
    ensures { JudgesValues net.now.net pattern.now
        (link_flows_in net.now.net.nodes sets.now.active values.items)
        (slopes_in net.now.net.nodes values.items)
        (at_part Part.Verdict (verdict_list passes_Q net.now.net pattern.now
        (slopes_in net.now.net.nodes values.items))) result }
{
    let flows = flows_of(alloc, net, sets, &values)?;
    let mut slopes = values;
    slopes.truncate(net.node_count() as usize);
    match verdict(net, sets, pattern, &flows, &slopes)? {
        Judged::Meets => {
            let pattern = pattern.copy(alloc)?;
            Ok(Some(ThinFlow {
                flows,
                slopes,
                pattern,
            }))
        }
        Judged::FailsNode(_) => Ok(None),
        Judged::FailsLink(_) => Ok(None),
    }
}

// ---- the values of a table's unknowns

// Returns the values of the only solution, or `None` if there is none or more than one.
fn only_values(found: Solved<Q>) -> Option<Vec<Q>>
    ensures { option_map (λ values. values.items) result ≡ values_of (λ q. q) found }
{
    match found {
        Solved::One(values) => Some(values),
        Solved::NotOne => None,
    }
}

/// Returns the only solution of a table, or `None` if there is none or more than one.
pub fn solved(alloc: Global, table: Table<Q>) -> Result<Option<Vec<Q>>, Halt<Q>>
    ensures { Gives (option_map (λ values. values.items)) (λ q. q) result
        (at_part Part.Table (table_list passes_Q table)) }
{
    let found = solve(alloc, table)?;
    Ok(only_values(found))
}

// Solves a pattern's table over small numbers. Returns `None` if a number on the way is not small. Fails if an allocation fails.
fn small_solution(
    alloc: Global,
    net: &Network,
    sets: &LinkSets,
    rate: Q,
    pattern: &Pattern,
) -> Result<Option<Solved<Q>>, AllocError>
    requires pattern { IsPatternIn net.now.net sets.now pattern.now }
    requires small { HoldsNumbers takes_small net.now.net rate }
    ensures { IfOk result (λ found. IfSome found
        (λ solved. table_list passes_Q (equations net.now.net sets.now rate pattern.now)
        ≡ Ok (values_of (λ q. q) solved))) }
{
    let mut table = Table::<Small>::new(alloc, unknown_count(net, sets))?;
    fill(&mut table, net, sets, rate, pattern);
    solve_small(alloc, table)
}

/// Returns the only solution of a pattern's table, or `None` if there is none or more than one. Refuses at the first operation that passes,
/// or if an allocation fails.
pub fn pattern_values(
    alloc: Global,
    net: &Network,
    sets: &LinkSets,
    rate: Q,
    pattern: &Pattern,
) -> Result<Option<Vec<Q>>, Halt<Q>>
    requires { IsPatternIn net.now.net sets.now pattern.now }
    ensures { Gives (option_map (λ values. values.items)) (λ q. q) result
        (at_part Part.Table
        (table_list passes_Q (equations net.now.net sets.now rate pattern.now))) }
{
    if has_small_numbers(net, rate) {
        if let Some(found) = small_solution(alloc, net, sets, rate, pattern)? {
            return Ok(only_values(found));
        }
    }
    let table = table_of(alloc, net, sets, rate, pattern)?;
    solved(alloc, table)
}

// ---- the whole of a pattern

/// Solves the equations of a pattern, and tests their solution. `rate` is the supply at the source, an amount per unit of time.
///
/// - `Accepted`: exactly if no operation passes and the pattern is solvable. `flows` then has the flow of each link, an amount per
///   unit of time, and `labels` the slope of each node's label.
/// - `NotSolvable`: exactly if no operation passes and the pattern is not solvable. The slices then hold any numbers.
/// - `Passed`: exactly if an operation of the table passes (part Table) or, after the table, one of the verdict (part Verdict); it
///   has the first one. The slices then hold any numbers.
///
/// There must be at most `MOST_GRID_UNKNOWNS` nodes and active links together, one flow for each link, and one label for each node.
/// No resetting link may be unbounded. Doesn't allocate.
pub fn try_pattern(
    net: &Network,
    sets: &LinkSets,
    rate: Q,
    pattern: &Pattern,
    flows: &mut [Q],
    labels: &mut [Q],
) -> Result<Tried, PassedAt<Q>>
    requires sets { AreSets net.now.net sets.now }
    requires bounded { (e : ℕ) → Has (unbounded net.now.net) e → Has sets.now.resetting e → ⊥ }
    requires pattern { IsPattern sets.now (unbounded net.now.net) pattern.now }
    requires few { length (unknowns net.now.net sets.now) ≤ 32 }
    requires flows { length flows.old ≡ length net.now.net.links }
    requires labels { length labels.old ≡ net.now.net.nodes }
    ensures { TriesInto passes_Q net.now.net sets.now rate pattern.now flows.new labels.new result }
{
    // Proof: `recall` does nothing. Its contract states that the network is well formed.
    net.recall();
    let count = unknown_count(net, sets);
    let mut room = [Q::zero(); 32];
    let values = &mut room[..count as usize];
    match solve_pattern(count, net, sets, rate, pattern, values)? {
        Eliminated::One => judge_into(net, sets, pattern, values, flows, labels),
        Eliminated::NotOne => Ok(Tried::NotSolvable),
    }
}

/// Returns the thin flow of an accepted pattern, or `None` if the pattern is not solvable. Refuses at the first of its operations that
/// passes, or if an allocation fails. Takes any number of unknowns. Its table is allocated, which is quicker than to make a grid.
pub fn try_one(
    alloc: Global,
    net: &Network,
    sets: &LinkSets,
    rate: Q,
    pattern: &Pattern,
) -> Result<Option<ThinFlow>, Halt<Q>>
    requires { IsPatternIn net.now.net sets.now pattern.now }
    ensures { TriesOne passes_Q net.now.net sets.now rate pattern.now result }
{
    match pattern_values(alloc, net, sets, rate, pattern)? {
        Some(values) => judge_values(alloc, net, sets, pattern, values),
        None => Ok(None),
    }
}
