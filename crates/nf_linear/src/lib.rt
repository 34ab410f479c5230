//! Linear systems with as many equations as unknowns, solved by elimination (after Gauss and Jordan) in exact fractions.
#![tactic(auto)]

mod copies;
mod elimination;
mod grid;
mod grid_cells;
mod marks;
mod row;
mod small_tables;
mod solution;
mod system;
mod table;
mod table_cells;

pub use grid::{Grid, solve_grid};
pub use small_tables::solve_small;
pub use solution::{Eliminated, Solved, solve};
pub use system::System;
pub use table::{MOST_UNKNOWNS, Table};
