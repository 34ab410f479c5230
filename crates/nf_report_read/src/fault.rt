// Faults of reports.
use nf_report_def::ReportRule;
use nf_text::FileFault;

/// A reason to refuse a report.
pub type ReportFault = FileFault<ReportRule>;
