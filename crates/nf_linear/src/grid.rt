// Linear systems on grids of fixed size.
ghost use Rattle.std.specs.Prelude.{◌≡◌, ℕ, ◌+◌, ◌<◌, ◌≤◌, length, set, replicate, IfOk, IfErr};
ghost use Rattle.nf_rational.specs.Operations.{0ℚ};
ghost use Rattle.nf_frac_def.specs.declared.Part.TheVariants as Part;
ghost use Rattle.nf_frac_def.specs.Passing.{passes_Q};
ghost use Rattle.nf_frac_def.specs.Checked.{at_part, seen_at};
ghost use Rattle.nf_linear_def.specs.Table.{row_at, table_list};
ghost use Rattle.nf_linear_laws.specs.Solution.{IsSquare};
ghost use Rattle.nf_linear.specs.Grids.{values_if, IsTrueWith};

use crate::grid_cells::{GridCells, wipe_row};
use crate::marks::Marks;
use crate::row::Row;
use crate::solution::{Eliminated, solve_rows};
use nf_frac::{PassedAt, Q};
use std::marker::Model;

/// A linear system of at most `N` unknowns: as many rows as unknowns, each with a number for each unknown and its right side.
#[derive(Drop)]
pub struct Grid<const N: usize> {
    rows: [Row<GridCells<N>>; N],
    size: u32,
}

impl<const N: usize> Model for Grid<N> {
    ghost use Rattle.std.specs.Prelude.{List, ◌≤◌, take};
    ghost use Rattle.nf_rational.specs.Rational.{ℚ};
    ghost use Rattle.nf_linear_laws.specs.Solution.{IsSquare};

    ghost Value = { List (List ℚ) };

    ghost view = { λ t. take t.size t.rows };

    ghost invariant = { λ t. (N ≤ 32) × (t.size ≤ N) × IsSquare (take t.size t.rows) };
}

// Sets all rows to zero, for this many unknowns.
fn wipe<const N: usize>(rows: &mut [Row<GridCells<N>>], size: u32)
    requires { size ≤ N }
    ensures { rows.new ≡ replicate (length rows.old) (replicate (size + 1) 0ℚ) }
{
    for i in 0..rows.len() {
        wipe_row(&mut rows[i], size);
    }
}

// Sets a number of a row.
fn set_at<const N: usize>(rows: &mut [Row<GridCells<N>>], row: usize, column: usize, value: Q)
    requires row { row < length rows.old }
    requires column { column < length (row_at rows.old row) }
    ensures { rows.new ≡ set rows.old row (set (row_at rows.old row) column value) }
{
    let changed = &mut rows[row];
    changed.set(column, value);
}

impl<const N: usize> Grid<N> {
    /// Makes the grid of `size` unknowns, all numbers 0. `size` must be 1 to `N`, and `N` at most 32. Doesn't allocate.
    pub fn zero(size: u32) -> Grid<N>
        requires size { (0 < size) × (size ≤ N) }
        requires few { N ≤ 32 }
        ensures { result ≡ replicate size (replicate (size + 1) 0ℚ) }
    {
        let mut rows: [Row<GridCells<N>>; N] = Default::default();
        wipe(&mut rows[..size as usize], size);
        Grid { rows, size }
    }

    /// Sets the number of a row for an unknown. Both indices must be below the number of unknowns.
    pub fn set(&mut self, row: u32, column: u32, value: Q)
        requires row { row < length self.old }
        requires column { column < length self.old }
        ensures { self.new ≡ set self.old row (set (row_at self.old row) column value) }
    {
        let size = self.size as usize;
        set_at(&mut self.rows[..size], row as usize, column as usize, value);
    }

    /// Sets the right side of a row, whose index must be below the number of unknowns.
    pub fn set_right(&mut self, row: u32, value: Q)
        requires { row < length self.old }
        ensures { self.new ≡ set self.old row (set (row_at self.old row) (length self.old) value) }
    {
        let size = self.size as usize;
        set_at(&mut self.rows[..size], row as usize, size, value);
    }
}

// Solves the system of the rows of a grid, each with its right side last. What is left in the rows has no meaning.
fn solve_in_place<const N: usize>(
    rows: &mut [Row<GridCells<N>>],
    values: &mut [Q],
) -> Result<Eliminated, PassedAt<Q>>
    requires square { IsSquare rows.old }
    requires room { length rows.old ≤ N }
    requires few { N ≤ 32 }
    requires values { length values.old ≡ length rows.old }
    ensures list { seen_at (λ found. values_if found values.new) (λ q. q) result
        ≡ at_part Part.Table (table_list passes_Q rows.old) }
    ensures solution { IfOk result (λ found. IsTrueWith rows.old found values.new) }
    ensures not_one { IfOk result (λ found. found ≡ Eliminated.NotOne → values.new ≡ values.old) }
    ensures passed { IfErr result (λ _. values.new ≡ values.old) }
{
    let mut columns = [Marks::none(); N];
    let mut entries = [(0, Q::zero()); N];
    let mut taken = [false; N];
    let mut pivots = [0; N];
    let mut found = [Q::zero(); N];
    let size = rows.len();
    let noted = &mut pivots[..size];
    let front = &mut found[..size];
    match solve_rows(rows, &mut columns, &mut entries, &mut taken, noted, front)? {
        Eliminated::One => {
            values.copy_from_slice(front);
            Ok(Eliminated::One)
        }
        Eliminated::NotOne => Ok(Eliminated::NotOne),
    }
}

/// Solves a system by elimination (after Gauss and Jordan). If no operation passes, returns `One` exactly if there is one solution,
/// which `values` then holds, and `NotOne` if there is none or more than one. Returns an error exactly if an operation passes: the
/// first one, with part Table. Without a solution `values` does not change. The grid is all zero afterwards. Doesn't allocate.
pub fn solve_grid<const N: usize>(
    grid: &mut Grid<N>,
    values: &mut [Q],
) -> Result<Eliminated, PassedAt<Q>>
    requires { length values.old ≡ length grid.old }
    ensures list { seen_at (λ found. values_if found values.new) (λ q. q) result
        ≡ at_part Part.Table (table_list passes_Q grid.old) }
    ensures solution { IfOk result (λ found. IsTrueWith grid.old found values.new) }
    ensures not_one { IfOk result (λ found. found ≡ Eliminated.NotOne → values.new ≡ values.old) }
    ensures passed { IfErr result (λ _. values.new ≡ values.old) }
    ensures zero { grid.new ≡ replicate (length grid.old) (replicate (length grid.old + 1) 0ℚ) }
{
    let size = grid.size;
    let solved = solve_in_place(&mut grid.rows[..size as usize], values);
    wipe(&mut grid.rows[..size as usize], size);
    solved
}
