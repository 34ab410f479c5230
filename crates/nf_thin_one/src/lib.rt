//! One pattern of a phase: the table of its equations, whether flows and slopes meet its inequalities, what comes of it, and whether
//! it leads to each node.
#![tactic(auto)]

mod comparing;
mod filling;
mod fulls;
mod led;
mod small_numbers;
mod solving;
mod thin;
mod trying;
mod verdicts;

pub use comparing::is_one_pattern;
pub use filling::unknown_count;
pub use fulls::full_flow;
pub use led::{each_is_led, may_carry};
pub use solving::MOST_GRID_UNKNOWNS;
pub use thin::ThinFlow;
pub use trying::{Tried, judge_values, pattern_values, solved, try_one, try_pattern};
pub use verdicts::{Judged, verdict};
