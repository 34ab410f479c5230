//! Decides whether a flow over time is an equilibrium: a Nash flow over time (Koch and Skutella 2011). The labels, inflows, outflows and
//! queues of the flow must agree. Times, amounts and rates are exact fractions.
#![tactic(auto)]

mod answer;
mod arrivals;
mod checking;
mod labels;

pub use answer::Answer;
pub use checking::check;
pub use nf_check_def::CheckRule;
pub use nf_check_rules::Subject;
