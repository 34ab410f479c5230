//! Resumption of a report: its flow is checked and cut at the departure that it reached, and a run from there continues to a later
//! horizon. Times, amounts and rates are exact fractions.
#![tactic(auto)]

mod curves;
mod cutting;
mod fault;
mod links;
mod resuming;

pub use fault::ResumeFault;
pub use resuming::resume;
