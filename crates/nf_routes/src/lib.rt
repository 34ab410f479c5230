//! Loads a network along given routes with given inflows. Each link is loaded after the links that feed it. Routes share each link first
//! in, first out. Times, amounts and rates are exact fractions.
#![tactic(auto)]

mod carried;
mod routed;

pub use carried::{Carried, carry_routes};
pub use nf_routes_read::{Routes, RoutesFault, RoutesRule, parse_routes};
pub use routed::{Routed, load_routes};
