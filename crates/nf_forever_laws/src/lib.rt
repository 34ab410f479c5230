//! Theorems of runs without a horizon. The flow is an equilibrium, and so is its extension by the tail up to every departure
//! (`specs/ForeverLaws`).
//!
//! In a phase that never ends, the slope of the sink is the supply rate over the least capacity of a static cut, or 1 if that is more
//! (`specs/Growth`). Sources: Cominetti, Correa and Olver 2017, Long-term behavior of dynamic equilibria in fluid queuing networks; Olver,
//! Sering and Vargas Koch 2021, Continuity, uniqueness and long-term behavior of Nash flows over time.
//!
//! `specs/TailGrowth` says how labels and travel times of a tail grow; `nf_settling_laws` proves it.
//!
//! Each theorem is the contract of a public function with an empty body.
#![tactic(auto)]

ghost use Rattle.nf_forever_laws.specs.ForeverLaws.{ForeverRunIsEquilibrium, TailGoesOn, EquilibriumHoldsBefore, ForeverHasOneResult, StoppedForeverHasNoThinFlow, StepsAgree};
ghost use Rattle.nf_forever_laws.specs.Cuts.{CutsHaveCapacity, LeastCapacityExists, OneLinkIsLeastCut};
ghost use Rattle.nf_forever_laws.specs.Growth.{EndlessPhaseGrowsByCuts, GrowthIsByLeastCut};

/// Proves that the flow of a run without a horizon is an equilibrium up to the departure that it reached.
pub fn forever_run_is_equilibrium()
    ensures { ForeverRunIsEquilibrium }
{}

/// Proves that a flow extended by its tail is an equilibrium up to every departure from 0 on.
pub fn tail_goes_on()
    ensures { TailGoesOn }
{}

/// Proves that an equilibrium up to a departure is an equilibrium up to each earlier departure from 0 on.
pub fn equilibrium_holds_before()
    ensures { EquilibriumHoldsBefore }
{}

/// Proves that the result of a run without a horizon is unique.
pub fn forever_has_one_result()
    ensures { ForeverHasOneResult }
{}

/// Proves that there is no thin flow if a run without a horizon stops because no listed pattern is solvable.
pub fn stopped_forever_has_no_thin_flow()
    ensures { StoppedForeverHasNoThinFlow }
{}

/// Proves that a phase to its own end as horizon is a phase of the run without a horizon, and that a cause of failure is one there too.
pub fn steps_agree()
    ensures { StepsAgree }
{}

/// Proves that the capacity of each static cut is above 0.
pub fn cuts_have_capacity()
    ensures { CutsHaveCapacity }
{}

/// Proves that a network with static cuts has one of least capacity.
pub fn least_capacity_exists()
    ensures { LeastCapacityExists }
{}

/// Proves three facts on a phase that never ends. Each slope is at least 1. The supply rate is at most the slope of the sink times the
/// capacity of any static cut. If the slope of the sink is above 1, the rate is that slope times the capacity of one cut: the nodes of
/// lesser slope.
pub fn endless_phase_grows_by_cuts()
    ensures { EndlessPhaseGrowsByCuts }
{}

/// Proves that the slope of the sink is the supply rate over the least capacity of a static cut, or 1 if that is more. If the slope is
/// above 1, the nodes of lesser slope are a cut of least capacity. The slope is 1 exactly if the capacity of each static cut is at least
/// the rate.
pub fn growth_is_by_least_cut()
    ensures { GrowthIsByLeastCut }
{}

/// Proves that the least capacity of a network of one link is that of the link. If the link is unbounded, there is no static cut.
pub fn one_link_is_least_cut()
    ensures { OneLinkIsLeastCut }
{}
