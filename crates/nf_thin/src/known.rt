// A pattern known to be accepted. If it is listed, the search finds it without a table.
ghost use Rattle.std.specs.Prelude.{IfOk, IfSome};
ghost use Rattle.nf_frac_def.specs.Passing.{passes_Q};
ghost use Rattle.nf_thin_guess.specs.Guessing.{IsSolved};
ghost use Rattle.nf_thin.specs.Knowing.{IsKnown};
ghost use Rattle.nf_thin.specs.Slopes.{AreThinSlopes};

use crate::problem::Problem;
use nf_frac::Halt;
use nf_thin_guess::SolvedPattern;
use nf_thin_one::{ThinFlow, each_is_led, judge_values};
use std::alloc::{AllocError, Global};

/// Returns the thin flow of the guessed pattern if the pattern is accepted and enters each node, or `None`. Fails if an allocation fails.
pub(crate) fn known_by(
    alloc: Global,
    problem: &Problem,
    last: SolvedPattern,
) -> Result<Option<ThinFlow>, AllocError>
    requires { IsSolved passes_Q problem.now.ranking.net.now.net problem.now.ranking.sets.now
        problem.now.rate last }
    ensures known { IfOk result (λ found. IfSome found
        (λ known. IsKnown passes_Q problem.now.ranking.net.now.net problem.now.ranking.sets.now
        problem.now.rate known)) }
    ensures thin { IfOk result (λ found. IfSome found
        (λ known. AreThinSlopes problem.now.ranking.net.now.net problem.now.ranking.sets.now
        problem.now.rate known.slopes.items)) }
{
    let SolvedPattern { pattern, values } = last;
    if !each_is_led(problem.ranking.net, problem.ranking.sets, &pattern) {
        return Ok(None);
    }
    match judge_values(
        alloc,
        problem.ranking.net,
        problem.ranking.sets,
        &pattern,
        values,
    ) {
        Ok(found) => Ok(found),
        Err(Halt::Passed(_)) => Ok(None),
        Err(Halt::Memory) => Err(AllocError),
    }
}
