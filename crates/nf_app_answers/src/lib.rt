//! The answers and refusals of the program, with their statuses and their texts for output and standard error. Texts for the output are
//! written to a sink without allocation. Two texts are built in memory first: those of a quickest flow, and of the walks pushed for one.
#![tactic(auto)]

mod arrival;
mod check_text;
mod gen_text;
mod load_text;
mod outcome;
mod quick_text;
mod refusal;
mod routes_text;
mod settle_text;
mod status;
mod telling;
mod walks_text;
mod words;

pub use arrival::Arrival;
pub use check_text::write_verdict;
pub use gen_text::{Ladder, write_summary};
pub use load_text::write_loads;
pub use outcome::{Computed, Outcome};
pub use quick_text::{flow_text, write_arrival};
pub use refusal::Refusal;
pub use routes_text::write_routed;
pub use settle_text::write_settled;
pub use status::Status;
pub use telling::{write_over_budget, write_refusal, write_stopped};
pub use walks_text::augments_text;
