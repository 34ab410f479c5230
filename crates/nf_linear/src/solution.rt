// The solution of rows, and of a table.
ghost use Rattle.std.specs.Prelude.{◌≡◌, ◌≤◌, [], length, map, IfOk};
ghost use Rattle.nf_frac_def.specs.declared.Part.TheVariants as Part;
ghost use Rattle.nf_frac_def.specs.Checked.{at_part, seen_at, Gives};
ghost use Rattle.nf_linear_def.specs.Table.{solution_from, table_list};
ghost use Rattle.nf_linear_laws.specs.Solution.{IsSquare};
ghost use Rattle.nf_linear.specs.Pivots.{AreTaken, HasPivots};
ghost use Rattle.nf_linear.specs.Grids.{values_if, IsTrueWith};
ghost use Rattle.nf_linear.specs.Solved.{values_of, IsTrueOf};

use crate::copies::copies;
use crate::elimination::clear_columns;
use crate::marks::Marks;
use crate::row::{Cells, Row};
use crate::table::Table;
use crate::table_cells::TableCells;
use nf_frac::{Halt, PassedAt, Scalar};
use std::alloc::Global;

/// The number of solutions of a system.
#[derive(Clone, Copy)]
pub enum Eliminated {
    /// There is one solution.
    One,
    /// There is no solution, or more than one.
    NotOne,
}

/// What is found of a system: its only solution, or that there is none or more than one.
#[derive(Drop)]
pub enum Solved<S> {
    /// The value of each unknown.
    One(Vec<S>),
    /// There is no solution, or more than one.
    NotOne,
}

// Finds the value of each unknown, once the columns are cleared.
fn find_values<C: Cells>(
    rows: &[Row<C>],
    pivots: &[usize],
    found: &mut [C::Number],
) -> Result<(), PassedAt<C::Number>>
    requires pivots { HasPivots rows.now pivots.now }
    requires room { length found.old ≡ length pivots.now }
    ensures { seen_at (λ _. map C.Number.means found.new) C.Number.means result
        ≡ at_part Part.Table (solution_from C.Number.passes rows.now 0 pivots.now) }
{
    let right = rows.len();
    for column in 0..pivots.len() {
        let pivot = pivots[column];
        let value = rows[pivot].value_of(column, right)?;
        found[column] = value;
    }
    Ok(())
}

// Solves the system of these rows, each with its right side last. What is left in them has no meaning. `columns` has a set for each
// column and `entries` room for the entries of a pivot row. No row is taken at first.
pub fn solve_rows<C: Cells>(
    rows: &mut [Row<C>],
    columns: &mut [Marks],
    entries: &mut [(usize, C::Number)],
    taken: &mut [bool],
    pivots: &mut [usize],
    found: &mut [C::Number],
) -> Result<Eliminated, PassedAt<C::Number>>
    requires square { IsSquare rows.old }
    requires entries { length rows.old ≤ length entries.old }
    requires flags { length rows.old ≤ length taken.old }
    requires count { length pivots.old ≡ length rows.old }
    requires room { length found.old ≡ length rows.old }
    requires taken { AreTaken taken.old [] }
    requires sets { length rows.old ≤ length columns.old }
    ensures list { seen_at
        (λ one. values_if one (map C.Number.means found.new)) C.Number.means result
        ≡ at_part Part.Table (table_list C.Number.passes rows.old) }
    ensures solution { IfOk result (λ one. IsTrueWith rows.old one (map C.Number.means found.new)) }
{
    if !clear_columns(rows, columns, entries, taken, pivots)? {
        return Ok(Eliminated::NotOne);
    }
    find_values(rows, pivots, found)?;
    Ok(Eliminated::One)
}

// Solves the system of the rows of a table. What is left in them has no meaning.
fn solve_table<S: Scalar>(
    alloc: Global,
    rows: &mut [Row<TableCells<S>>],
) -> Result<Solved<S>, Halt<S>>
    requires { IsSquare rows.old }
    ensures list { Gives (values_of S.means) S.means result
        (at_part Part.Table (table_list S.passes rows.old)) }
    ensures solution { IfOk result (IsTrueOf S.means rows.old) }
{
    let size = rows.len();
    let mut columns = copies(alloc, Marks::none(), size)?;
    let mut entries = copies(alloc, (0, S::zero()), size)?;
    let mut taken = copies(alloc, false, size)?;
    let mut pivots = copies(alloc, 0, size)?;
    let mut values = copies(alloc, S::zero(), size)?;
    match solve_rows(
        rows,
        &mut columns,
        &mut entries,
        &mut taken,
        &mut pivots,
        &mut values,
    )? {
        Eliminated::One => Ok(Solved::One(values)),
        Eliminated::NotOne => Ok(Solved::NotOne),
    }
}

/// Solves a system by elimination (after Gauss and Jordan). If no operation passes, returns `One` with the only solution, or `NotOne`
/// exactly if there is none or more than one. Returns `Passed` exactly if an operation passes: the first one, with part Table.
/// Otherwise fails only if an allocation fails. Takes the table on each outcome.
pub fn solve<S: Scalar>(alloc: Global, table: Table<S>) -> Result<Solved<S>, Halt<S>>
    ensures list { Gives (values_of S.means) S.means result
        (at_part Part.Table (table_list S.passes table)) }
    ensures solution { IfOk result (IsTrueOf S.means table) }
{
    let mut rows = table.into_rows();
    solve_table(alloc, &mut rows)
}
