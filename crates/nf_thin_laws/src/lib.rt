//! Theorems of thin flows, listings and searches. Accepted patterns are thin flows, and all thin flows have the same slopes. A network has
//! one listing and a search one answer. If no operation passes, lists have their exact values (`specs/ListLaws`).
//!
//! `specs/NarrowLaws` has the theorems of the narrowed listing: which states slopes force, and how counts of assignments bound a pattern's
//! rank. Each theorem is the contract of a public function with an empty body.
#![tactic(auto)]

ghost use Rattle.nf_thin_laws.specs.ActiveLinks.{ActiveLinksHoldNoCycle};
ghost use Rattle.nf_thin_laws.specs.PatternLaws.{AcceptedPatternIsThin, SlopesAllowStates, NoListedPatternIsSingular};
ghost use Rattle.nf_thin_laws.specs.MemberLaws.{OneLinkHasPhase};
ghost use Rattle.nf_thin_laws.specs.SlopeLaws.{SlopesAreUnique, PhaseSequencesAgree, ThinFlowComesToSink};
ghost use Rattle.nf_thin_laws.specs.ListLaws.{ListingIsUnique, SearchHasOneAnswer, RunHasOneReport, RunEndsAtLabels, ValuesAreExact, StepsAreTheModels};
ghost use Rattle.nf_thin_laws.specs.NarrowLaws.{ForcedPatternsAreListed, NarrowedSearchTells, SlopesForceStates, PlacesAreBounded, ListedStatesAreChoices, PlacesAreBoundedBelow, FirmAssignmentsAreListed, NarrowedSearchAnswers};

/// The active links of labels hold no cycle. If the active links hold no cycle and lead to each node except the source, none leads to the
/// source.
pub fn active_links_hold_no_cycle()
    ensures { ActiveLinksHoldNoCycle }
{}

/// An accepted pattern gives a thin flow: the solution of a listed pattern's equations that meets its inequalities.
pub fn accepted_pattern_is_thin()
    ensures { AcceptedPatternIsThin }
{}

/// All thin flows for one rate have the same slopes, if the active links hold no cycle (Cominetti, Correa and Larré 2015).
pub fn slopes_are_unique()
    ensures { SlopesAreUnique }
{}

/// From a time with its labels, a phase leads to only one later time with its labels. Phase sequences of a network to one horizon are equal
/// if they are equally long.
pub fn phase_sequences_agree()
    ensures { PhaseSequencesAgree }
{}

/// The flow that a thin flow sends out of the source enters the sink.
pub fn thin_flow_comes_to_sink()
    ensures { ThinFlowComesToSink }
{}

/// The equations of a listed pattern have at most one solution, if the active links hold no cycle.
pub fn no_listed_pattern_is_singular()
    ensures { NoListedPatternIsSingular }
{}

/// The slopes of a thin flow allow each state of a listed and solvable pattern, if the active links hold no cycle. So a pattern with
/// another state is not accepted.
pub fn slopes_allow_states()
    ensures { SlopesAllowStates }
{}

/// The definitions of listed and solvable patterns and of phase sequences have members: those of a network of one link.
pub fn one_link_has_phase()
    ensures { OneLinkHasPhase }
{}

/// A network's listed patterns have at most one listing, for each base pattern.
pub fn listing_is_unique()
    ensures { ListingIsUnique }
{}

/// A search has at most one answer, with all its values: a thin flow, an exceeded budget, a passing operation, or no pattern.
pub fn search_has_one_answer()
    ensures { SearchHasOneAnswer }
{}

/// The phase run of a network, with its horizon and budgets, has at most one report. Curves, rates, the time reached, the stop and the last
/// pattern are all determined.
pub fn run_has_one_report()
    ensures { RunHasOneReport }
{}

/// The curves of a phase run end at the departure reached. A link's inflow and queue end at its tail's label there, and its outflow at its
/// head's label.
pub fn run_ends_at_labels()
    ensures { RunEndsAtLabels }
{}

/// The value of an operation sequence does not depend on the bound on a fraction's numerator and denominator. If no operation passes, the
/// value is exact.
pub fn values_are_exact()
    ensures { ValuesAreExact }
{}

/// If no operation passes, the slack operations give the links' slacks, and the advance operations move the labels. They move them for the
/// extension length, cut at the horizon.
pub fn steps_are_the_models()
    ensures { StepsAreTheModels }
{}

/// The listed patterns with the forced states are those listed without the forced links, in the same order.
pub fn forced_patterns_are_listed()
    ensures { ForcedPatternsAreListed }
{}

/// A search among patterns with the forced states determines the result of the search among all patterns. This holds if each listed and
/// solvable pattern has the forced states.
pub fn narrowed_search_tells()
    ensures { NarrowedSearchTells }
{}

/// The slopes of a thin flow force states that each listed and solvable pattern has, if the active links hold no cycle.
pub fn slopes_force_states()
    ensures { SlopesForceStates }
{}

/// The rank of a listed pattern is at most one more than the number of assignments of states before it.
pub fn places_are_bounded()
    ensures { PlacesAreBounded }
{}

/// No listed pattern has Full for an unbounded link, or Zero for a link that alone can enter its head.
pub fn listed_states_are_choices()
    ensures { ListedStatesAreChoices }
{}

/// The rank of a listed pattern is greater than the number of assignments of freely combinable states before it.
pub fn places_are_bounded_below()
    ensures { PlacesAreBoundedBelow }
{}

/// Each assignment of freely combinable states is listed. A link may be Tight only if it is Tight in a listed pattern, and no unbounded
/// link may be Full. Into each node except the source, some link is resetting or may not be Zero.
pub fn firm_assignments_are_listed()
    ensures { FirmAssignmentsAreListed }
{}

/// A search among patterns with the forced states gives the answer of the search. This holds if the rank of the found pattern is known to
/// be within the budget or beyond it.
pub fn narrowed_search_answers()
    ensures { NarrowedSearchAnswers }
{}
