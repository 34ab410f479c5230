// Tables of linear systems.
ghost use Rattle.std.specs.Prelude.{◌≡◌, ℕ, ◌+◌, ◌<◌, ◌≤◌, length, set, replicate, IfOk};
ghost use Rattle.nf_rational.specs.Operations.{0ℚ};
ghost use Rattle.nf_linear_def.specs.Table.{row_at};
ghost use Rattle.nf_linear_laws.specs.Solution.{IsSquare};
ghost use Rattle.nf_linear.specs.Limits.{most_unknowns};

use crate::row::Row;
use crate::table_cells::TableCells;
use nf_frac::Scalar;
use std::alloc::{AllocError, Global};
use std::marker::Model;

/// The most unknowns of a table: 64 nodes and 200 links.
pub const MOST_UNKNOWNS: u32 = 264;

/// A linear system: as many rows as unknowns, each with a number for each unknown and its right side.
#[derive(Drop)]
pub struct Table<S: Scalar> {
    rows: Vec<Row<TableCells<S>>>,
}

impl<S: Scalar> Model for Table<S> {
    ghost use Rattle.std.specs.Prelude.{List};
    ghost use Rattle.nf_rational.specs.Rational.{ℚ};
    ghost use Rattle.nf_linear_laws.specs.Solution.{IsSquare};

    ghost Value = { List (List ℚ) };

    ghost view = { λ t. t.rows.items };

    ghost invariant = { λ t. IsSquare t.rows.items };
}

impl<S: Scalar> Table<S> {
    /// Makes the table of `size` unknowns, all numbers 0. `size` must be 1 to 264. Fails only if an allocation fails.
    pub fn new(alloc: Global, size: u32) -> Result<Table<S>, AllocError>
        requires { (0 < size) × (size ≤ most_unknowns) }
        ensures { IfOk result (λ table. table ≡ replicate size (replicate (size + 1) 0ℚ)) }
    {
        let count = size as usize;
        let mut rows = Vec::with_capacity(alloc, count)?;
        for _ in 0..count {
            let cells = TableCells::zero(alloc, count + 1)?;
            rows.push(Row::of(cells))?;
        }
        Ok(Table { rows })
    }

    /// Sets the number of a row for an unknown. Both indices must be below the number of unknowns.
    pub fn set(&mut self, row: u32, column: u32, value: S)
        requires row { row < length self.old }
        requires column { column < length self.old }
        ensures { self.new ≡ set self.old row (set (row_at self.old row) column (S.means value)) }
    {
        let changed = &mut self.rows[row as usize];
        changed.set(column as usize, value);
    }

    /// Sets the right side of a row, whose index must be below the number of unknowns.
    pub fn set_right(&mut self, row: u32, value: S)
        requires { row < length self.old }
        ensures { self.new
            ≡ set self.old row (set (row_at self.old row) (length self.old) (S.means value)) }
    {
        let size = self.rows.len();
        let changed = &mut self.rows[row as usize];
        changed.set(size, value);
    }

    // Returns the rows, each with its right side last.
    pub(crate) fn into_rows(self) -> Vec<Row<TableCells<S>>>
        ensures rows { result.items ≡ self }
        ensures square { IsSquare result.items }
    {
        self.rows
    }
}
