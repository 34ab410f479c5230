//! Loads links with their inflows. Reads loads files, which give the inflow of each link as pieces. Computes the amounts that pieces supply,
//! and the queue, outflow and exits by the law of the point queue (Vickrey 1969). Times, amounts and rates are exact fractions. The file
//! format is this project's own.
#![tactic(auto)]

mod amounts;
mod curves;
mod draft;
mod entry;
mod exiting;
mod leaving;
mod loading;
mod loads;
mod reading;
mod shortening;
mod waiting;
mod waits;

pub use amounts::{cumulative, supplied};
pub use loading::{Loaded, load_link, load_trace};
pub use loads::Loads;
pub use nf_report_def::LoadRule;
pub use reading::{LoadsFault, parse_loads};
