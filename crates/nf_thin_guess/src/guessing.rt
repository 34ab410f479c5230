// A guess of an accepted pattern: a first pattern is repaired until no link violates its inequality. No contract depends on the guess,
// since it is judged like any other pattern.
ghost use Rattle.std.specs.Prelude.{IfOk, IfSome};
ghost use Rattle.nf_frac_def.specs.Passing.{passes_Q};
ghost use Rattle.nf_thin_equation_laws.specs.Equations.{IsPatternIn};
ghost use Rattle.nf_thin_one.specs.Trying.{AreValuesOf};
ghost use Rattle.nf_thin_guess.specs.Guessing.{IsSolved};
ghost use Rattle.nf_thin_guess.specs.Values.{AreComplete};

use crate::by_parts::part_values;
use crate::repairs::{Extent, Repairs};
use crate::reverting::Reverting;
use crate::rounds::Rounds;
use crate::values::Values;
use nf_frac::{Halt, Q};
use nf_graph::LinkSets;
use nf_net::Network;
use nf_pattern::Pattern;
use nf_thin_one::pattern_values;
use std::alloc::{AllocError, Global};

/// A pattern, with the values that solve its table: slopes in node order, and then flows of active links in link order. Flows are amounts
/// per unit of time.
#[derive(Drop)]
pub struct SolvedPattern {
    pub pattern: Pattern,
    pub values: Vec<Q>,
}

// Returns the most repairs of a pattern. A few usually suffice, and many similar links need several repairs each.
fn most_repairs(net: &Network) -> u32 {
    net.link_count().saturating_mul(20).saturating_add(64)
}

// Returns the values that solve a pattern's table. Returns `None` if there is not exactly one solution, or an operation passes. Fails if an
// allocation fails.
fn values_of(
    alloc: Global,
    net: &Network,
    sets: &LinkSets,
    rate: Q,
    pattern: &Pattern,
) -> Result<Option<Vec<Q>>, AllocError>
    requires { IsPatternIn net.now.net sets.now pattern.now }
    ensures { IfOk result (λ found. IfSome found
        (λ values. AreValuesOf passes_Q net.now.net sets.now rate pattern.now values.items)) }
{
    match pattern_values(alloc, net, sets, rate, pattern) {
        Ok(values) => Ok(values),
        Err(Halt::Passed(_)) => Ok(None),
        Err(Halt::Memory) => Err(AllocError),
    }
}

// Returns the pattern with the values that solve its table. Returns `None` if there is not exactly one solution, or an operation passes.
// Fails if an allocation fails.
fn solved_pattern(
    alloc: Global,
    net: &Network,
    sets: &LinkSets,
    rate: Q,
    pattern: Pattern,
) -> Result<Option<SolvedPattern>, AllocError>
    requires { IsPatternIn net.now.net sets.now pattern }
    ensures { IfOk result
        (λ found. IfSome found (λ last. IsSolved passes_Q net.now.net sets.now rate last)) }
{
    match values_of(alloc, net, sets, rate, &pattern)? {
        Some(values) => Ok(Some(SolvedPattern { pattern, values })),
        None => Ok(None),
    }
}

// Repairs the pattern until no link violates its inequality, and returns its values then. If repairs of each link go round, goes on with
// repairs of one link. Returns `None` if these go round too, there are too many repairs, the table does not have exactly one solution, or
// an operation passes. Fails if an allocation fails.
fn repaired(
    alloc: Global,
    net: &Network,
    sets: &LinkSets,
    rate: Q,
    pattern: &mut Pattern,
) -> Result<Option<Values>, AllocError>
    requires { IsPatternIn net.now.net sets.now pattern.old }
    ensures pattern { IsPatternIn net.now.net sets.now pattern.new }
    ensures values { IfOk result
        (λ found. IfSome found (λ values. AreComplete net.now.net values)) }
{
    let mut rounds = Rounds::start(alloc, pattern)?;
    let mut extent = Extent::Each;
    for _ in 0..most_repairs(net) {
        let Some(values) = part_values(alloc, net, sets, rate, pattern)? else {
            return Ok(None);
        };
        let repairs = Repairs {
            net,
            sets,
            values: &values,
        };
        if !repairs.repair(extent, pattern) {
            return Ok(Some(values));
        }
        if rounds.come_back(alloc, net, pattern)? {
            match extent {
                Extent::Each => extent = Extent::First,
                Extent::First => return Ok(None),
            }
        }
    }
    Ok(None)
}

/// Guesses an accepted pattern by repairs of `first`, and returns it with the values that solve its table. `rate` is the supply, an amount
/// per unit of time. The values on the way are found without a table. Returns `None` if the repairs do not end, a table does not have
/// exactly one solution, or an operation passes. Fails if an allocation fails.
pub fn guess(
    alloc: Global,
    net: &Network,
    sets: &LinkSets,
    rate: Q,
    first: &Pattern,
) -> Result<Option<SolvedPattern>, AllocError>
    requires { IsPatternIn net.now.net sets.now first.now }
    ensures { IfOk result
        (λ found. IfSome found (λ last. IsSolved passes_Q net.now.net sets.now rate last)) }
{
    let mut pattern = first.copy(alloc)?;
    let Some(values) = repaired(alloc, net, sets, rate, &mut pattern)? else {
        return Ok(None);
    };
    let reverting = Reverting {
        net,
        sets,
        rate,
        first,
        values: &values,
    };
    let last = reverting.reverted(alloc, pattern)?;
    solved_pattern(alloc, net, sets, rate, last)
}
