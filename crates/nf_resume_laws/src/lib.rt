//! Laws of resumed runs. Each is the contract of a public function with an empty body.
#![tactic(auto)]

ghost use Rattle.nf_resume_laws.specs.ResumeLaws.{CutFlowIsEquilibrium, ResumedReportGoesOn, OpenIsWithinPhase, RestGoesOn};

/// Proves that an equilibrium, cut at the departure that it reached and put into short form, is an equilibrium with the same values.
pub fn cut_flow_is_equilibrium()
    ensures { CutFlowIsEquilibrium }
{}

/// Proves that the report of a run resumed from an equilibrium is an equilibrium, and has the values of the report that it continues.
pub fn resumed_report_goes_on()
    ensures { ResumedReportGoesOn }
{}

/// Proves that a run is mid-phase exactly if its state lies within a phase: after an end before the extension length, but not at the
/// extension length, and not at the start.
pub fn open_is_within_phase()
    ensures { OpenIsWithinPhase }
{}

/// Proves that the base pattern after an interrupted phase is listed, has the phase's unique solution, and lasts for the remaining length
/// of the phase.
pub fn rest_goes_on()
    ensures { RestGoesOn }
{}
