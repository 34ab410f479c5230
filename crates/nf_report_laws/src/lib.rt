//! This crate states theorems about loads files and reports: accepted files are well formed, and reports and their texts correspond one
//! to one. Each theorem is the contract of a public function with an empty body.
#![tactic(auto)]

ghost use Rattle.nf_report_laws.specs.Laws.{LoadsHavePieces, ReportReadsBack, AcceptedIsItsText, TextsDiffer};

/// Each link of an accepted loads file has pieces with increasing starts and rates that are not negative.
pub fn loads_have_pieces()
    ensures { LoadsHavePieces }
{}

/// Reading the text of a well-formed report of a network, with readable fractions and counts, returns that report.
pub fn report_reads_back()
    ensures { ReportReadsBack }
{}

/// A text that is read as a report of a network is the text of exactly that report. The report is well formed, with readable fractions
/// and counts.
pub fn accepted_is_its_text()
    ensures { AcceptedIsItsText }
{}

/// Different reports of a network have different texts.
pub fn texts_differ()
    ensures { TextsDiffer }
{}
