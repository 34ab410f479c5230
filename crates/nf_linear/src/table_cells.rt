// Rows of tables.
ghost use Rattle.std.specs.Prelude.{◌≡◌, replicate, IfOk};
ghost use Rattle.nf_rational.specs.Operations.{0ℚ};
ghost use Rattle.nf_rational.specs.Signs as Signs;

use crate::copies::copies;
use crate::marks::Marks;
use crate::row::Cells;
use nf_frac::Scalar;
use std::alloc::{AllocError, Global};
use std::marker::Model;

// The numbers of a row of a table.
#[derive(Drop)]
pub struct TableCells<S: Scalar> {
    cells: Vec<S>,
    // The columns of all numbers that are not 0, and perhaps of others.
    some: Marks,
}

impl<S: Scalar> Model for TableCells<S> {
    ghost use Rattle.std.specs.Prelude.{List, map};
    ghost use Rattle.nf_rational.specs.Rational.{ℚ};
    ghost use Rattle.nf_linear.specs.Marks.{AreZeroUnless};

    ghost Value = { List ℚ };

    ghost view = { λ r. map S.means r.cells.items };

    ghost invariant = { λ r. AreZeroUnless r.some (map S.means r.cells.items) };
}

// Returns whether a value is 0.
fn is_zero<S: Scalar>(value: S) -> bool
    ensures { result ≡ Signs.is_zero (S.means value) }
{
    value == S::zero()
}

impl<S: Scalar> TableCells<S> {
    // Returns a row of zeros.
    pub fn zero(alloc: Global, len: usize) -> Result<TableCells<S>, AllocError>
        ensures { IfOk result (λ cells. cells ≡ replicate len 0ℚ) }
    {
        let cells = copies(alloc, S::zero(), len)?;
        let some = Marks::none();
        Ok(TableCells { cells, some })
    }
}

impl<S: Scalar> Cells for TableCells<S> {
    type Number = S;

    ghost numbers = { λ c. c };

    fn at(&self, column: usize) -> S {
        self.cells[column]
    }

    fn is_zero_at(&self, column: usize) -> bool {
        is_zero(self.cells[column])
    }

    fn next_some(&self, from: usize, end: usize) -> usize {
        self.some.next(from, end)
    }

    fn set(&mut self, column: usize, value: S) {
        self.cells[column] = value;
        self.some.put(column);
    }
}
