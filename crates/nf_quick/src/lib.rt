//! The quickest flow of an amount from source to sink, with a cut over time that proves that no flow is earlier; and the least
//! departure by which the supply reaches an amount.
#![tactic(auto)]

mod fault;
mod pushing;
mod quick;
mod working;

pub use fault::QuickFault;
pub use nf_quick_times::departure;
pub use nf_quick_walks::{Augment, Rated};
pub use quick::Quick;
pub use working::quickest;
