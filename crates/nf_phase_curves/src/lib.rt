//! Growing curves of nodes and links in short form, from the start or from the end of other curves. `PhaseView` computes the steps by
//! which a phase extends the curves of the links. `reserve_labels` and `reserve_links` allocate first, so `extend_labels` and
//! `extend_links` cannot fail.
#![tactic(auto)]

mod copies;
mod flows;
mod growing;
mod growth;
mod last_slopes;
mod link_curves;
mod link_growth;
mod phase_links;
mod phase_view;
mod stepping;
mod traces;

pub use flows::{copy_flow, finish_flow};
pub use growing::GrowingCurve;
pub use growth::{extend_labels, first_labels, reserve_labels, reserve_links, restore_labels};
pub use link_curves::LinkCurves;
pub use link_growth::{amounts, extend_links, first_links, restore_links};
pub use phase_view::PhaseView;
pub use stepping::{LinkStep, QueueStep};
