// Comparisons of fractions, and the lesser and the greater of two.
ghost use Rattle.std.specs.Prelude.{◌≡◌, ◌↔◌, IsTrue, ◌&&◌};
ghost use Rattle.nf_rational.specs.Operations.{0ℚ};
ghost use Rattle.nf_rational.specs.Order.{le_ℚ, lt_ℚ, min_ℚ, max_ℚ};

use crate::fraction::Frac;

impl<const BITS: u32> Frac<BITS> {
    /// Returns whether this value is at most the other.
    #[tactic(auto, using(crate::proofs::Comparisons::le_by_order))]
    pub fn is_at_most(self, right: Frac<BITS>) -> bool
        ensures { result ≡ le_ℚ self.entry right.entry }
    {
        self <= right
    }

    /// Returns whether this value is less than the other.
    #[tactic(auto, using(crate::proofs::Comparisons::below_is))]
    pub fn is_below(self, right: Frac<BITS>) -> bool
        ensures { result ≡ lt_ℚ self.entry right.entry }
    {
        !right.is_at_most(self)
    }

    /// Returns whether the two values are equal.
    pub fn is_same(self, right: Frac<BITS>) -> bool
        ensures { result ≡ (le_ℚ self.entry right.entry && le_ℚ right.entry self.entry) }
    {
        self == right
    }

    /// Returns the lesser of the two values.
    #[tactic(auto, using(crate::proofs::Comparisons::lesser_is))]
    pub fn lesser(self, right: Frac<BITS>) -> Frac<BITS>
        ensures { result ≡ min_ℚ self.entry right.entry }
    {
        if self.is_at_most(right) { self } else { right }
    }

    /// Returns the greater of the two values.
    #[tactic(auto, using(crate::proofs::Comparisons::greater_is))]
    pub fn greater(self, right: Frac<BITS>) -> Frac<BITS>
        ensures { result ≡ max_ℚ self.entry right.entry }
    {
        if self.is_at_most(right) { right } else { self }
    }

    /// Returns whether this value is 0.
    pub fn is_zero(self) -> bool
        ensures by_order { result ≡ (le_ℚ self.entry 0ℚ && le_ℚ 0ℚ self.entry) }
        ensures zero { IsTrue result ↔ (self.entry ≡ 0ℚ) }
    {
        self == Frac::zero()
    }
}
