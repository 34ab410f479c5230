//! Reads network files: single lines, then all lines in order into a parser state, then the file as a whole. Each step gives the first
//! rule that is broken. Times, amounts and rates are exact fractions.
#![tactic(auto)]

mod closing;
mod contents;
mod draft;
mod entry;
mod fault;
mod link;
mod name;
mod names;
mod pieces;
mod sizes;

pub use closing::{flags_of, hops_of, names_rule, walk_rule};
pub use contents::read_draft;
pub use draft::Draft;
pub use fault::NetFault;
pub use link::{Link, NamedLink, Piece};
pub use name::{LONGEST_NAME, Name, is_name};
pub use names::Names;
pub use pieces::{rate_of, start_after};
pub use sizes::{LONGEST_FILE, MOST_NODES};
