//! Phases of a flow over time (Koch and Skutella 2011): the length of a phase, and runs that are extended phase by phase to a
//! horizon.
#![tactic(auto)]

mod extending;
mod fault;
mod finding;
mod open_runs;
mod phase;
mod restoring;
mod run;
mod solution;
mod solving;
mod stops;

pub use fault::StepFault;
pub use nf_phase_length::extension;
pub use nf_thin::ThinFlow;
pub use run::Run;
pub use solution::{Budgets, Solution};
pub use solving::solve;
pub use stops::stop_by;
