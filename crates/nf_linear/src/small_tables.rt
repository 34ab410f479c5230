// Systems of small numbers, solved over small numbers alone.
ghost use Rattle.std.specs.Prelude.{◌≡◌, Ok, IfOk, IfSome, MatchOption};
ghost use Rattle.nf_frac_def.specs.Passing.{passes_Q};
ghost use Rattle.nf_linear_def.specs.Table.{table_list};
ghost use Rattle.nf_linear.specs.Solved.{values_of};
ghost use Rattle.nf_linear.specs.SmallTables.{passes_small, PassesSmall};

use crate::solution::{Solved, solve};
use crate::table::Table;
use nf_frac::{Halt, Q, Small};
use std::alloc::{AllocError, Global};

// Returns the same numbers, with room for wider parts.
fn widened(alloc: Global, numbers: &[Small]) -> Result<Vec<Q>, AllocError>
    ensures { IfOk result (λ wide. wide.items ≡ numbers.now) }
{
    numbers.iter().map(|number| number.wide()).collect(alloc)
}

/// Solves a system of small numbers by elimination over small numbers alone. Returns `None` exactly if an operation exceeds 63 bits;
/// the caller then solves the system over wide numbers. Otherwise no operation over wide numbers passes, and the result is the one
/// that they give. Fails only if an allocation fails. Takes the table on each outcome.
pub fn solve_small(alloc: Global, table: Table<Small>) -> Result<Option<Solved<Q>>, AllocError>
    ensures small { IfOk result
        (λ found. MatchOption found (PassesSmall table)
        (λ solved. table_list passes_small table ≡ Ok (values_of (λ q. q) solved))) }
    ensures wide { IfOk result (λ found.
        IfSome found (λ solved. table_list passes_Q table ≡ Ok (values_of (λ q. q) solved))) }
{
    match solve(alloc, table) {
        Ok(Solved::One(values)) => {
            let values = widened(alloc, &values)?;
            Ok(Some(Solved::One(values)))
        }
        Ok(Solved::NotOne) => Ok(Some(Solved::NotOne)),
        Err(Halt::Passed(_)) => Ok(None),
        Err(Halt::Memory) => Err(AllocError),
    }
}
