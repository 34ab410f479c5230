//! Reads routes files and computes the loading order of their links. Each route has a name, links, and the pieces of its inflow. Times,
//! amounts and rates are exact fractions. The file format is this project's own.
#![tactic(auto)]

mod draft;
mod entry;
mod order;
mod reading;
mod route;
mod routes;
mod walk;

pub use nf_routes_def::RoutesRule;
pub use order::loading_order;
pub use reading::{RoutesFault, parse_routes};
pub use route::Route;
pub use routes::Routes;
