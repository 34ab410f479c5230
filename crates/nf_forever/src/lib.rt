//! Runs without a horizon: a network is solved phase by phase until a last phase that never ends, its tail, or until a stop; and the
//! text of the result.
#![tactic(auto)]

mod forever;
mod solving;
mod tail_lines;
mod text;

pub use forever::{Forever, Tail};
pub use solving::solve_forever;
pub use text::write_forever;
