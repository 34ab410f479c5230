//! This crate reads reports. The result is the report that a text is, or the first rule that the text breaks. Times, amounts and rates are
//! exact fractions. The file format is this project's own.
#![tactic(auto)]

mod fault;
mod reading;
mod report;

pub use fault::ReportFault;
pub use nf_report_def::ReportRule;
pub use reading::parse_report;
pub use report::Report;
