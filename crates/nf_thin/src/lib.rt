//! The search for a thin flow with resetting, by the first accepted pattern of the listing.
#![tactic(auto)]

mod cycles;
mod fault;
mod finding;
mod known;
mod problem;
mod searches;
mod sifting;
mod thin;
mod trying_next;
mod vain;

pub use fault::SearchFault;
pub use nf_thin_one::{
    Judged, MOST_GRID_UNKNOWNS, ThinFlow, Tried, try_pattern, unknown_count, verdict,
};
pub use searches::{find_thin, search};
pub use thin::Thin;
