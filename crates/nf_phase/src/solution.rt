// The request to a run, and its result.
use nf_curve::{Flow, Stop};
use nf_pattern::Pattern;

/// The limits of a run: the number of phases, and the number of patterns in each phase.
#[derive(Clone, Copy)]
pub struct Budgets {
    pub phases: u64,
    pub patterns: u64,
}

/// The result of a run: the flow up to the departure reached, the number of phases, and the state of each link in the last phase. `stopped`
/// is the reason why the run ended before the horizon, if it did.
#[derive(Drop)]
pub struct Solution {
    pub flow: Flow,
    pub phases: u64,
    pub last: Pattern,
    pub stopped: Option<Stop>,
}
