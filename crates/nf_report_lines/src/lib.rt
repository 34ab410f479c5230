//! This crate reads the lines of a report one by one. It gives the meaning of a line, or the first rule that the line breaks, and adds the
//! meaning to the parser state.
#![tactic(auto)]

mod body;
mod causes;
mod draft;
mod entry;
mod head;
mod keys;
mod lines;
mod numbers;
mod opening;
mod plain_numbers;

pub use draft::{Draft, Stage};
pub use entry::{Entry, Opening, RatedPoint};
pub use keys::{Key, Kind, key_at};
