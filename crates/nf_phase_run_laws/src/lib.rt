//! Theorems about whole phase runs. The report of a run can be read, reads back, and a checker answers yes for it, as for each equilibrium.
//! A resumed run is compared with the run from the start. No run stops because no thin flow exists: each phase has a thin flow
//! (`nf_complete_laws`), and if no listed pattern is solvable, there is none. Each theorem is the contract of a public function with an
//! empty body.
#![tactic(auto)]

ghost use Rattle.nf_phase_run_laws.specs.ReadableLaws.{RunReportIsReadable, RunReportReadsBack};
ghost use Rattle.nf_phase_run_laws.specs.VerdictLaws.{EquilibriumIsAnsweredYes, RunIsAnsweredYes, WrittenIsAnsweredYes, RoutesAreKept};
ghost use Rattle.nf_phase_run_laws.specs.ResumedLaws.{ResumedIsSolved, ResumedRunHasOneReport, RunIsRestored};
ghost use Rattle.nf_phase_run_laws.specs.ResumedReports.{ResumedReportIsReadable, ResumedReportReadsBack, ResumedStopsForNoThinFlow};
ghost use Rattle.nf_phase_run_laws.specs.ThinFlows.{LabelsHaveThinFlow};
ghost use Rattle.nf_phase_run_laws.specs.Stops.{NoRunStopsForNoPattern};
ghost use Rattle.nf_phase_run_laws.specs.Sequences.{PhaseSequencesGoOn};

/// The report of a phase run of an accepted network has readable fractions and counts, if the horizon is a fraction and the budgets have
/// at most 64 bits.
pub fn run_report_is_readable()
    ensures { RunReportIsReadable }
{}

/// Reading the text of the report of a phase run returns that report, if the horizon is a fraction and the budgets have at most 64 bits.
/// No other readable report has the same text.
pub fn run_report_reads_back()
    ensures { RunReportReadsBack }
{}

/// If no operation passes, a checker answers yes for each equilibrium.
pub fn equilibrium_is_answered_yes()
    ensures { EquilibriumIsAnsweredYes }
{}

/// If no operation passes, a checker answers yes for the report of a phase run of the network.
pub fn run_is_answered_yes()
    ensures { RunIsAnsweredYes }
{}

/// If no operation passes, a checker answers yes for the report that is read from the text of a run's report.
pub fn written_is_answered_yes()
    ensures { WrittenIsAnsweredYes }
{}

/// If the rules C1 to C7 hold, C8 holds: flow that is conserved along earliest arrivals takes shortest routes. Hence no checker answers
/// no for C8.
pub fn routes_are_kept()
    ensures { RoutesAreKept }
{}

/// Proves that restoring a run from its report gives the run's state, with no phase counted.
pub fn run_is_restored()
    ensures { RunIsRestored }
{}

/// Proves that a run resumed from its report and a run from the start have the same report, if both reach a later horizon. If the first run
/// ended mid-phase, no operation of a table or verdict list may exceed its bound in the search for the remainder of that phase.
pub fn resumed_is_solved()
    ensures { ResumedIsSolved }
{}

/// Proves that resuming a report is deterministic: two runs resumed from it with the same bounds have as many phases and the same report.
pub fn resumed_run_has_one_report()
    ensures { ResumedRunHasOneReport }
{}

/// Proves that the report of a resumed run is readable, if the resumed report is well-formed and readable: its numbers are fractions of a
/// file, its counts have at most 64 bits. The network must be that of an accepted file, the horizon a fraction of a file, and the budgets
/// of at most 64 bits.
pub fn resumed_report_is_readable()
    ensures { ResumedReportIsReadable }
{}

/// Proves that the text of a resumed run's report reads back as that report, if the resumed report was read from a text. It is the text of
/// no other readable report.
pub fn resumed_report_reads_back()
    ensures { ResumedReportReadsBack }
{}

/// Proves that there is no thin flow if a resumed run stops because no pattern is left.
pub fn resumed_stops_for_no_thin_flow()
    ensures { ResumedStopsForNoThinFlow }
{}

/// Proves that there is a thin flow for the link sets and the supply rate at the labels of an equilibrium, at each departure that it
/// describes. The same holds at every state of a run and every point of a phase sequence.
pub fn labels_have_thin_flow()
    ensures { LabelsHaveThinFlow }
{}

/// Proves that no run stops because no pattern is left: from the start, resumed or without a horizon.
pub fn no_run_stops_for_no_pattern()
    ensures { NoRunStopsForNoPattern }
{}

/// Proves that each network has a phase sequence to a horizon with any number of phases, unless one with fewer reaches the horizon.
pub fn phase_sequences_go_on()
    ensures { PhaseSequencesGoOn }
{}
