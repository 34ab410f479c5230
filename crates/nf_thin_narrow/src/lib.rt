//! The narrow question: the listing that is left if the slopes of a thin flow force states of links. The crate puts forced states into
//! patterns, and decides whether a pattern's rank is within a budget. It decides by the number of assignments before the pattern, or by the
//! listing.
#![tactic(auto)]

mod filling;
mod firm;
mod forcing;
mod listing;
mod row;
mod sole;
mod within;

pub use filling::fill;
pub use firm::{Firm, firm_ways_before};
pub use forcing::forced_by;
pub use listing::narrow_listing;
pub use row::{count_changes, ways_before};
pub use sole::sole_flags;
pub use within::goes_on_to;
