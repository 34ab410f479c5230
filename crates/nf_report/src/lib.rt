//! Writing a report to a sink, and reading it back; with the calls of `nf_report_pages`, which write its lines.
#![tactic(auto)]

mod report;

pub use nf_report_pages::{
    Page, put_cause, put_flow, put_line, put_number, put_states, write_curve, write_line,
    write_passed_call, write_stop, written_reads_back,
};
pub use nf_report_read::{Report, ReportFault, ReportRule, parse_report};
pub use report::write_report;
