//! Theorems on the growth of labels in the long run. From the last start of a piece on, the label of the sink follows a line, up to a
//! bound that the network determines. The slope of the line is the last supply rate over the least capacity of a static cut, or 1 if that
//! is less (`specs/Growth`). Sources: Cominetti, Correa and Olver 2017; Olver, Sering and Vargas Koch 2021. The proof uses graded flows
//! (`nf_settling_graded_laws`).
//!
//! Each theorem is the contract of a public function with an empty body.
#![tactic(auto)]

ghost use Rattle.nf_settling_growth_laws.specs.Growth.{GradedFlowDecides, BottleneckDecides, BottleneckSteadies, GrowthIsByCuts, TailHasGrowth, OneLinkGrows};

/// Proves that in every equilibrium, from the last start of a piece on, the label of the sink differs from a line by at most a constant.
/// The slope of the line is the last supply rate over the least capacity of a static cut, or 1 if that is less. The network alone
/// determines both (Cominetti, Correa and Olver 2017; Olver, Sering and Vargas Koch 2021).
pub fn bottleneck_decides()
    ensures { BottleneckDecides }
{}

/// Proves that in every equilibrium, from the last start of a piece on, the distance of the sink's label from that line changes by at
/// most a constant in all, up and down. The network alone determines the constant.
pub fn bottleneck_steadies()
    ensures { BottleneckSteadies }
{}

/// Proves that the level of the sink in a graded flow is the growth of the network. In every equilibrium the label of the sink grows at
/// this level, up to a constant.
pub fn graded_flow_decides()
    ensures { GradedFlowDecides }
{}

/// Proves that a network has one growth. It is 1 exactly if no static cut has a smaller capacity than the last supply rate.
pub fn growth_is_by_cuts()
    ensures { GrowthIsByCuts }
{}

/// Proves that in the tail of a run without a horizon the label of the sink grows at the growth of the network.
pub fn tail_has_growth()
    ensures { TailHasGrowth }
{}

/// Proves which growth a network of one link has.
pub fn one_link_grows()
    ensures { OneLinkGrows }
{}
