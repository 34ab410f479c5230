//! The program as one call: words in, bytes to two sinks, a status out.
#![tactic(auto)]

mod answering;
mod arrival;
mod gathering;
mod loading;
mod running;
mod settling;

pub use nf_app_answers::Status;
pub use nf_gen::generated;
pub use running::run;
