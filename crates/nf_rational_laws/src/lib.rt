//! Theorems of the rational numbers, and the solver for linear facts about them (`proofs/Linear`).
//!
//! Each theorem is the contract of a public function with an empty body. `proofs/` also has lemmas that several crates use and std
//! lacks: on results (`Results`), natural numbers (`Naturals`), list entries (`Entries`) and tests of signs (`SignTests`).
#![tactic(auto)]

ghost use Rattle.nf_rational_laws.specs.Laws.{IsRing, HasQuotients, IsOrdered, IsDecided, RatiosAreReduced};

/// The rational numbers are a commutative ring.
pub fn ring_laws()
    ensures { IsRing }
{}

/// Division by a number other than 0 is the inverse of multiplication.
pub fn quotient_laws()
    ensures { HasQuotients }
{}

/// The order is total. Adding a number and multiplying by a positive number preserve the strict order.
pub fn order_laws()
    ensures { IsOrdered }
{}

/// The tests decide the order, and `min_ℚ` and `max_ℚ` return the lesser and the greater number.
pub fn test_laws()
    ensures { IsDecided }
{}

/// Numbers with equal cross products are equal, and the ratio of a number's numerator and denominator is the number.
pub fn reduced_laws()
    ensures { RatiosAreReduced }
{}
