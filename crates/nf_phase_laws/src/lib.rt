//! Theorems of phases and phase runs. Phases by thin flows, one after the other, make a Nash flow over time (`proofs/Holds`,
//! `proofs/Lasting`). So the report of a phase run is an equilibrium (`specs/RunLaws`).
//!
//! Each theorem is the contract of a public function with an empty body.
#![tactic(auto)]

ghost use Rattle.nf_phase_laws.specs.PhaseLaws.{NashFromInvariant, StartHasInvariant, PhaseKeepsInvariant, PhasesKeepInvariant, PhasesMakeNashFlow};
ghost use Rattle.nf_phase_laws.specs.Description.{DescriptionIsRight, PhasesKeepDescription, DescriptionMakesEquilibrium};
ghost use Rattle.nf_phase_laws.specs.LengthLaws.{PhasesTakeTime};
ghost use Rattle.nf_phase_laws.specs.CurveSteps.{PointsGoOn, CurvesMakeFlow};
ghost use Rattle.nf_phase_laws.specs.DescriptionCurves.{CurvesMakeDescription};
ghost use Rattle.nf_phase_laws.specs.CurveRun.{PhasesMakeEquilibrium};
ghost use Rattle.nf_phase_laws.specs.StillLaws.{StillNodesCarryNoFlow};
ghost use Rattle.nf_phase_laws.specs.RunLaws.{RunGrowsByPhases, RunHasShape, RunHasSlopes, RunReportIsEquilibrium, RunIsShort, RunKeepsLabels, RunLabelsAreEarliest, ExtendListIsExtension, RunIsPhaseSequence};

/// Proves that a flow satisfying the invariant of phases up to a departure is a Nash flow over time for everything that leaves the source
/// up to then.
pub fn nash_from_invariant()
    ensures { NashFromInvariant }
{}

/// Proves that the invariant of phases holds up to time 0 at the start, where nothing has entered a link and the labels are the least
/// transit sums from the source.
pub fn start_has_invariant()
    ensures { StartHasInvariant }
{}

/// Proves that a phase preserves the invariant. The phase extends the flow by a thin flow for the sets of the slacks, for at most as long
/// as it can last.
pub fn phase_keeps_invariant()
    ensures { PhaseKeepsInvariant }
{}

/// Proves that a flow built phase by phase from the start satisfies the invariant up to the end of the last phase. Its labels there are
/// those of the phase sequence.
pub fn phases_keep_invariant()
    ensures { PhasesKeepInvariant }
{}

/// Proves that a flow built phase by phase from the start is a Nash flow over time up to the end of the last phase. Each phase has a thin
/// flow for the sets of the slacks and the supply rate at its beginning.
pub fn phases_make_nash_flow()
    ensures { PhasesMakeNashFlow }
{}

/// Proves that in a thin flow for the sets of slacks no flow enters or leaves a node whose label is constant.
pub fn still_nodes_carry_no_flow()
    ensures { StillNodesCarryNoFlow }
{}

/// Proves that a description by departure gives the outflows and queues of the links at every time up to the labels, if the invariant of
/// phases holds. The described outflow is the amount sent into the link, the described queue that of its slack.
pub fn description_is_right()
    ensures { DescriptionIsRight }
{}

/// Proves that the description by departure holds at the start, and that each phase preserves it. In a phase the outflow has the rate flow
/// over head slope, and the queue has one rate, up to the queue of the slack at the end.
pub fn phases_keep_description()
    ensures { PhasesKeepDescription }
{}

/// Proves that each phase has positive length: the extension length is above 0, and so is the length of a phase that begins before the
/// horizon.
pub fn phases_take_time()
    ensures { PhasesTakeTime }
{}

/// Proves that a flow of a report is an equilibrium under three conditions. The invariant of phases holds for its inflows and labels up to
/// the departure reached. Its outflows and queues are described by departure. Its curves and rates are well-formed.
pub fn description_makes_equilibrium()
    ensures { DescriptionMakesEquilibrium }
{}

/// Proves that appending a point extends a curve along a line, and that replacing the last point does so too, if the curve reached it with
/// the same slope.
pub fn points_go_on()
    ensures { PointsGoOn }
{}

/// Proves that extending the curves over a phase by one point each extends the flow: the labels at their slopes, the inflows by the flow.
/// The new curves end where the phase ends.
pub fn curves_make_flow()
    ensures { CurvesMakeFlow }
{}

/// Proves that extending outflow and queue curves over a phase by one point each extends the description. The new curves end where the
/// phase ends.
pub fn curves_make_description()
    ensures { CurvesMakeDescription }
{}

/// Proves that a flow is an equilibrium if its curves are built phase by phase from the start, and its curves and rates are well-formed.
/// Each phase adds one point to each curve, according to its thin flow and length.
pub fn phases_make_equilibrium()
    ensures { PhasesMakeEquilibrium }
{}

/// Proves that the curves of a run are built phase by phase from the start. Each phase adds one point, according to its thin flow and
/// length.
pub fn run_grows_by_phases()
    ensures { RunGrowsByPhases }
{}

/// Proves that a run has one curve of each kind for each node or link.
pub fn run_has_shape()
    ensures { RunHasShape }
{}

/// Proves that the rates of a run's inflows and outflows are the slopes of their curves.
pub fn run_has_slopes()
    ensures { RunHasSlopes }
{}

/// Proves that the report of a phase run is an equilibrium of the network: a Nash flow over time up to the departure that it reached (Koch
/// and Skutella 2011), with the outflows, queues and rates of its links.
pub fn run_report_is_equilibrium()
    ensures { RunReportIsEquilibrium }
{}

/// Proves that the curves of a run and of its report are in short form: no inner point of a label, inflow, outflow or queue curve has equal
/// slopes on both sides.
pub fn run_is_short()
    ensures { RunIsShort }
{}

/// Proves that the labels of a run are the values of its label curves at the departure reached.
pub fn run_keeps_labels()
    ensures { RunKeepsLabels }
{}

/// Proves that the labels of a run are the earliest arrivals at the nodes of particles that leave the source at the departure reached. The
/// labels of its report are the earliest arrivals for each departure up to there.
pub fn run_labels_are_earliest()
    ensures { RunLabelsAreEarliest }
{}

/// Proves that the value of the extend list is the greatest length of a phase, and that None implies that every length is possible.
pub fn extend_list_is_extension()
    ensures { ExtendListIsExtension }
{}

/// Proves that the phases of a run make a phase sequence to its horizon. Every phase sequence to that horizon with as many phases ends
/// where the run ends.
pub fn run_is_phase_sequence()
    ensures { RunIsPhaseSequence }
{}
