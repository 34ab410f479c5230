//! This crate states theorems between the definitions of the model. Each theorem is the contract of a public function with an empty body.
#![tactic(auto)]

ghost use Rattle.nf_model_laws.specs.CurveLaws.{CurveGoesByPoints, AppendedPointGoesOn, EqualSlopesMerge, EndsDecideAffine, AffineFunctionsCombine, RisingPointsRise};
ghost use Rattle.nf_model_laws.specs.QueueLaws.{LinkHasOneValue, QueueIsNotNegative, OutflowIsInflowLessQueue, ExitNeverFalls, QueueGoesOn, LinkHasValues};
ghost use Rattle.nf_model_laws.specs.ExitLaws.{FirstInFirstOut};
ghost use Rattle.nf_model_laws.specs.EarliestLaws.{ExtremesAreUnique, LabelsAreEarliest, ReportLabelsAreEarliest, LeastTransitByLinks};
ghost use Rattle.nf_model_laws.specs.SupplyLaws.{SupplyGoesOn};
ghost use Rattle.nf_model_laws.specs.SlackLaws.{SlacksMakeSets};
ghost use Rattle.nf_model_laws.specs.MemberLaws.{OneLinkEquilibrium, FullLinkEquilibrium, TightLinkEquilibrium, HasMember};

/// A curve has each point's value at its time, is affine from each point to the next, and is constant after the last.
pub fn curve_goes_by_points()
    ensures { CurveGoesByPoints }
{}

/// Appending a point changes no value up to the previously last point. From there the curve is affine up to the appended point.
pub fn appended_point_goes_on()
    ensures { AppendedPointGoesOn }
{}

/// Removing a point with equal slopes before and after it changes no value of the curve.
pub fn equal_slopes_merge()
    ensures { EqualSlopesMerge }
{}

/// Two functions that are affine on an interval and agree at its ends agree between. A function that is affine on an interval and not
/// negative at its ends is not negative between.
pub fn ends_decide_affine()
    ensures { EndsDecideAffine }
{}

/// Sums, differences and compositions of affine functions are affine. An affine function is affine on each smaller interval.
pub fn affine_functions_combine()
    ensures { AffineFunctionsCombine }
{}

/// A curve whose values never fall from point to point never falls.
pub fn rising_points_rise()
    ensures { RisingPointsRise }
{}

/// A link has at most one queue, exit and outflow at each time.
pub fn link_has_one_value()
    ensures { LinkHasOneValue }
{}

/// A queue is never negative, and each exit is at least the transit time after its entry.
pub fn queue_is_not_negative()
    ensures { QueueIsNotNegative }
{}

/// The outflow, one transit time after a moment, is equal to the inflow by that moment less the queue.
pub fn outflow_is_inflow_less_queue()
    ensures { OutflowIsInflowLessQueue }
{}

/// If the inflow never falls, what enters a link later does not leave it earlier.
pub fn exit_never_falls()
    ensures { ExitNeverFalls }
{}

/// While the inflow has one rate, the queue changes at that rate less the capacity, but never below 0.
pub fn queue_goes_on()
    ensures { QueueGoesOn }
{}

/// A link whose inflow is a curve has a queue, an exit and an outflow at each time from 0 on.
pub fn link_has_values()
    ensures { LinkHasValues }
{}

/// Each least transit sum, earliest arrival, extension length and phase length is unique.
pub fn extremes_are_unique()
    ensures { ExtremesAreUnique }
{}

/// If the inflows never fall, the earliest arrivals over all walks satisfy two conditions, and no other labels do. No link leads to its
/// head before the head's label. Some link leads to each node except the source exactly at its label.
pub fn labels_are_earliest()
    ensures { LabelsAreEarliest }
{}

/// If the inflows of a report never fall, its labels for a departure from 0 on are the earliest arrivals exactly under two conditions. No
/// link leads to its head before the head's label. Some link leads to each node except the source exactly at its label.
pub fn report_labels_are_earliest()
    ensures { ReportLabelsAreEarliest }
{}

/// Labels are the least transit sums over all walks from the source exactly under two conditions. The label of a link's head never exceeds
/// the tail's label plus the transit time. Some link into each node except the source attains equality.
pub fn least_transit_by_links()
    ensures { LeastTransitByLinks }
{}

/// The supply is 0 at time 0 and never falls. While no piece starts, the supply grows at its current rate.
pub fn supply_goes_on()
    ensures { SupplyGoesOn }
{}

/// A link is active if its slack is at least 0, and resetting if its slack is positive. Slacks move with the labels.
pub fn slacks_make_sets()
    ensures { SlacksMakeSets }
{}

/// First in, first out: if the inflow never falls, the outflow by the exit of an entry time is the inflow by that entry time.
pub fn first_in_first_out()
    ensures { FirstInFirstOut }
{}

/// On a network of one link, a flow is an equilibrium exactly under three conditions. The whole supply enters the link at once, the
/// sink's label is the exit, and outflow and queue are those of this inflow.
pub fn one_link_equilibrium()
    ensures { OneLinkEquilibrium }
{}

/// The equilibrium of one link, supplied at one rate of at least its capacity, has a queue that grows by the rate less the capacity. The
/// flow leaves at the capacity.
pub fn full_link_equilibrium()
    ensures { FullLinkEquilibrium }
{}

/// The equilibrium of one link that is unbounded, or supplied at one rate of at most its capacity, has no queue.
pub fn tight_link_equilibrium()
    ensures { TightLinkEquilibrium }
{}

/// Some network has an equilibrium beyond time 0. The network is one link of transit time 1 and capacity 1, supplied at rate 2 from time
/// 0 to 2, up to time 2.
pub fn equilibrium_has_member()
    ensures { HasMember }
{}
