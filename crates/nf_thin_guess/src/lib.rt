//! A guess of an accepted pattern. The contract promises only that its values solve the pattern's table. Callers judge the guess like any
//! other pattern. The values on the way are found without a table, and no contract promises anything of them. Slopes come from the Tight
//! components of the network, and flows of Tight links from their forest.
#![tactic(auto)]

mod by_parts;
mod forest;
mod guessing;
mod mending;
mod node_parts;
mod numbers;
mod part_slopes;
mod repairs;
mod reverting;
mod rounds;
mod tight_flows;
mod values;

pub use guessing::{SolvedPattern, guess};
pub use mending::mended;
