//! Callers of the crates of this repository, one file for each, with a short function. Each has a contract of its own, which is proved from
//! the contracts of its calls alone. A program that uses one of the crates can begin with its caller. The page CALLING.md of the called
//! crate shows the file.
#![tactic(auto)]

mod check;
mod complete;
mod curve;
mod edge;
mod forever;
mod frac;
mod graph;
mod greatest;
mod ladder;
mod linear;
mod load;
mod net;
mod pattern;
mod phase;
mod quick;
mod report;
mod residual;
mod resume;
mod routes;
mod sets;
mod text;
mod thin;

pub use check::is_equilibrium;
pub use complete::settle_if_thin;
pub use curve::stays_below;
pub use edge::{CopyFault, copy_file};
pub use forever::carries_supply;
pub use frac::mean;
pub use graph::path_time;
pub use greatest::greatest_queue;
pub use ladder::ladder_size;
pub use linear::split_rate;
pub use load::queue_after;
pub use net::free_flow_time;
pub use pattern::first_listed;
pub use phase::arrival_after;
pub use quick::can_arrive_by;
pub use report::pass_on;
pub use residual::first_push;
pub use resume::continued;
pub use routes::all_arrived_by;
pub use sets::has_queue;
pub use text::content_count;
pub use thin::sink_slope;
