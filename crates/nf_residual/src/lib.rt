//! Residual walks of a static flow, and pushes along them. Bellman-Ford rounds find shortest walks and least lengths (after Bellman
//! 1958 and Ford 1956).
#![tactic(auto)]

mod flows;
mod legs;
mod length;
mod reaches;
mod residual;
mod room;
mod rounds;
mod step;
mod ways;

pub use flows::{flow_at, put_flow};
pub use residual::Residual;
pub use step::{Step, Walk};
