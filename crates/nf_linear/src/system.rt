// What the equations of a system are written into.
ghost use Rattle.std.specs.Prelude.{◌≡◌, ◌<◌, length, set, List, Bool, true, IsTrue};
ghost use Rattle.nf_rational.specs.Rational.{ℚ};
ghost use Rattle.nf_linear_def.specs.Table.{row_at};
ghost use Rattle.nf_linear.specs.Holding.{HoldsUnits, any_holds, takes_small, small_units};

use crate::grid::Grid;
use crate::table::Table;
use nf_frac::{Q, Small};

/// A linear system that is written number by number: as many rows as unknowns, each with a number for each unknown and its right
/// side.
pub trait System {
    // The rows that it stands for.
    ghost rows_of: { Self → List (List ℚ) };

    // Whether it can hold a number.
    ghost takes: { ℚ → Bool };

    /// Sets the number of a row for an unknown.
    fn set(&mut self, row: u32, column: u32, value: Q)
        requires row { row < length (rows_of self.old) }
        requires column { column < length (rows_of self.old) }
        requires takes { IsTrue (takes value) }
        ensures { rows_of self.new
            ≡ set (rows_of self.old) row (set (row_at (rows_of self.old) row) column value) };

    /// Sets the right side of a row.
    fn set_right(&mut self, row: u32, value: Q)
        requires row { row < length (rows_of self.old) }
        requires takes { IsTrue (takes value) }
        ensures { rows_of self.new ≡ set (rows_of self.old) row
            (set (row_at (rows_of self.old) row) (length (rows_of self.old)) value) };

    // It can hold 0, 1 and -1.
    ghost takes_units: { HoldsUnits takes };
}

impl System for Table<Q> {
    ghost rows_of = { λ t. t };

    ghost takes = { λ _. true };

    ghost takes_units = { any_holds };

    fn set(&mut self, row: u32, column: u32, value: Q) {
        Table::set(self, row, column, value);
    }

    fn set_right(&mut self, row: u32, value: Q) {
        Table::set_right(self, row, value);
    }
}

// Returns a small number in its small form.
fn narrowed(value: Q) -> Small
    requires { IsTrue (takes_small value) }
    ensures { result ≡ value }
{
    value.small().unwrap()
}

impl System for Table<Small> {
    ghost rows_of = { λ t. t };

    ghost takes = { takes_small };

    ghost takes_units = { small_units };

    fn set(&mut self, row: u32, column: u32, value: Q) {
        Table::set(self, row, column, narrowed(value));
    }

    fn set_right(&mut self, row: u32, value: Q) {
        Table::set_right(self, row, narrowed(value));
    }
}

impl<const N: usize> System for Grid<N> {
    ghost rows_of = { λ t. t };

    ghost takes = { λ _. true };

    ghost takes_units = { any_holds };

    fn set(&mut self, row: u32, column: u32, value: Q) {
        Grid::set(self, row, column, value);
    }

    fn set_right(&mut self, row: u32, value: Q) {
        Grid::set_right(self, row, value);
    }
}
