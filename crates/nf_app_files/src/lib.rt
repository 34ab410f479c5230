//! The input and output of a run: fetches the files of a request, each once and in order, and parses the first as a network; writes an
//! answer to the two sinks, or why there is none.
#![tactic(auto)]

mod fetching;
mod output;

pub use fetching::{fetch_network, fetch_network_with};
pub use output::{give, refuse};
