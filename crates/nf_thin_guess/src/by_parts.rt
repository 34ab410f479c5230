// The values that solve a pattern's table, found without that table: slopes from one equation for each Tight component, then flows. No
// contract depends on these values, since a guess is judged like any other pattern.
ghost use Rattle.std.specs.Prelude.{IfOk, IfSome};
ghost use Rattle.nf_thin_equation_laws.specs.Equations.{IsPatternIn};
ghost use Rattle.nf_thin_guess.specs.Values.{AreComplete};

use crate::part_slopes::part_slopes;
use crate::tight_flows::with_flows;
use crate::values::Values;
use nf_frac::{Halt, Q};
use nf_graph::LinkSets;
use nf_net::Network;
use nf_pattern::Pattern;
use std::alloc::{AllocError, Global};

// Returns the slopes of the nodes and the flows of the links, or `None`.
fn slopes_and_flows(
    alloc: Global,
    net: &Network,
    sets: &LinkSets,
    rate: Q,
    pattern: &Pattern,
) -> Result<Option<Values>, Halt<Q>>
    requires { IsPatternIn net.now.net sets.now pattern.now }
    ensures { IfOk result (λ found. IfSome found (λ values. AreComplete net.now.net values)) }
{
    match part_slopes(alloc, net, sets, rate, pattern)? {
        Some(slopes) => with_flows(alloc, net, sets, rate, pattern, slopes),
        None => Ok(None),
    }
}

/// Returns the values that solve a pattern's table. Returns `None` if the table does not have exactly one solution, or an operation passes.
/// No contract promises this. Fails if an allocation fails.
pub(crate) fn part_values(
    alloc: Global,
    net: &Network,
    sets: &LinkSets,
    rate: Q,
    pattern: &Pattern,
) -> Result<Option<Values>, AllocError>
    requires { IsPatternIn net.now.net sets.now pattern.now }
    ensures { IfOk result (λ found. IfSome found (λ values. AreComplete net.now.net values)) }
{
    match slopes_and_flows(alloc, net, sets, rate, pattern) {
        Ok(values) => Ok(values),
        Err(Halt::Passed(_)) => Ok(None),
        Err(Halt::Memory) => Err(AllocError),
    }
}
