//! The theorem that each network has a graded flow (`specs/Grading`; Cominetti, Correa and Olver 2017; Olver, Sering and Vargas Koch 2021).
//! `nf_settling_growth_laws` compares labels with its levels.
//!
//! The theorem is the contract of a public function with an empty body.
#![tactic(auto)]

ghost use Rattle.nf_settling_graded_laws.specs.Grading.{GradedFlowExists};

/// Proves that a network has a graded flow of each value of at least 0.
pub fn graded_flow_exists()
    ensures { GradedFlowExists }
{}
