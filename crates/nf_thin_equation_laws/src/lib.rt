//! A theorem on patterns: the equations of a pattern, as a table, have exactly the pattern's solutions. It is the contract of a function
//! without effect, and its proof is in `proofs/`.
#![tactic(auto)]

ghost use Rattle.nf_thin_equation_laws.specs.Equations.{EquationsAreThePatterns};

/// If no operation passes, elimination of a pattern's equations gives the flows and slopes that alone solve the pattern. It gives none
/// exactly if there are none or more than one.
pub fn equations_are_the_patterns()
    ensures { EquationsAreThePatterns }
{}
