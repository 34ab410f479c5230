//! Laws of equilibria and of runs restored from them. Each is the contract of a public function with an empty body.
#![tactic(auto)]

ghost use Rattle.nf_phase_equilibrium_laws.specs.EquilibriumLaws.{EquilibriumHasInvariant};

/// Proves that any equilibrium satisfies the invariant of phases up to the departure that it reached, and describes its links.
pub fn equilibrium_has_invariant()
    ensures { EquilibriumHasInvariant }
{}
