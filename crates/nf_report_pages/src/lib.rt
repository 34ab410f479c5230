//! Writes lines, curves and causes to a sink, page by page, and the lines of a whole flow. Shows that the text of a report is read back.
//!
//! No call that writes allocates. Calls named `put_..` gather lines on a page of the caller, which is written when it is full; the caller
//! writes the last page. Calls named `write_..` have a page of their own.
#![tactic(auto)]

mod causes;
mod curves;
mod flow;
mod known;
mod line;
mod pages;
mod read_back;

pub use causes::{put_cause, put_number, write_passed_call, write_stop};
pub use curves::write_curve;
pub use flow::{put_flow, put_states};
pub use line::{put_line, write_line};
pub use pages::Page;
pub use read_back::written_reads_back;
