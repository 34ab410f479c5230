// Rows of grids, in place.
ghost use Rattle.std.specs.Prelude.{◌≡◌, ◌+◌, ◌≤◌, replicate};
ghost use Rattle.nf_rational.specs.Operations.{0ℚ};

use crate::row::{Cells, Row};
use nf_frac::Q;
use std::marker::Model;

// The numbers of a row of a grid.
#[derive(Drop)]
pub struct GridCells<const N: usize> {
    cells: [Q; N],
    right: Q,
    // How many unknowns there are.
    size: u32,
}

impl<const N: usize> Model for GridCells<N> {
    ghost use Rattle.std.specs.Prelude.{List, [], ◌∷◌, ◌++◌, ◌≤◌, take};
    ghost use Rattle.nf_rational.specs.Rational.{ℚ};

    ghost Value = { List ℚ };

    ghost view = { λ r. take r.size r.cells ++ r.right ∷ [] };

    ghost invariant = { λ r. r.size ≤ N };
}

impl<const N: usize> GridCells<N> {
    // Sets all numbers to zero, for this many unknowns.
    fn wipe(&mut self, size: u32)
        requires { size ≤ N }
        ensures { self.new ≡ replicate (size + 1) 0ℚ }
    {
        self.cells[..size as usize].fill(Q::zero());
        self.right = Q::zero();
        self.size = size;
    }
}

impl<const N: usize> Cells for GridCells<N> {
    type Number = Q;

    ghost numbers = { λ c. c };

    fn at(&self, column: usize) -> Q {
        if column < self.size as usize {
            self.cells[column]
        } else {
            self.right
        }
    }

    fn is_zero_at(&self, column: usize) -> bool {
        self.at(column).is_zero()
    }

    fn next_some(&self, from: usize, _end: usize) -> usize {
        from
    }

    fn set(&mut self, column: usize, value: Q) {
        if column < self.size as usize {
            self.cells[column] = value;
        } else {
            self.right = value;
        }
    }
}

impl<const N: usize> Default for Row<GridCells<N>> {
    // Returns a row of no unknowns.
    fn default() -> Self {
        Row {
            cells: GridCells {
                cells: [Q::zero(); N],
                right: Q::zero(),
                size: 0,
            },
        }
    }
}

// Sets a row to zero, for this many unknowns.
pub fn wipe_row<const N: usize>(row: &mut Row<GridCells<N>>, size: u32)
    requires { size ≤ N }
    ensures { row.new ≡ replicate (size + 1) 0ℚ }
{
    row.cells.wipe(size);
}
