//! Theorems of linear systems. Elimination finds the only solution, or reports that there is not exactly one. Finite systems of linear
//! inequalities are decided, and an objective that is bounded below attains a least value.
//!
//! Each theorem is the contract of a public function with an empty body. In `proofs/`, `Forms` and `Constraints` build systems of
//! inequalities and read them.
#![tactic(auto)]

ghost use Rattle.nf_linear_laws.specs.Solution.{TableIsSolved};
ghost use Rattle.nf_linear_laws.specs.LeastLaws.{LeastIsTaken, SystemIsDecided};

/// If no operation passes, elimination of a square table gives the only solution of its system. It gives none exactly if the system has no
/// solution or more than one.
pub fn table_is_solved()
    ensures { TableIsSolved }
{}

/// A finite system has a solution, or it has none.
pub fn system_is_decided()
    ensures { SystemIsDecided }
{}

/// If a finite system has a solution and an objective has a lower bound on all solutions, some solution has the least value.
pub fn least_is_taken()
    ensures { LeastIsTaken }
{}
