// Order, equality and hash of fractions. None of these can fail.
ghost use Rattle.std.specs.Prelude.{◌≡◌, ◌++◌, refl, Some};
ghost use Rattle.std.specs.Hash as fed;
ghost use Rattle.nf_rational.specs.Order.{cmp_ℚ};
ghost use Rattle.nf_frac.specs.Order.{same_ℚ};
ghost use Rattle.nf_frac.specs.Total.{cmp_total, cmp_matches_same, same_equivalence, same_partial_equivalence, partial_order, same_hash};

use crate::fraction::Frac;
use std::cmp::Ordering;
use std::hash::{Hash, Hasher};

impl<const BITS: u32> PartialEq for Frac<BITS> {
    ghost eq = { same_ℚ };

    ghost laws = { same_partial_equivalence };

    fn eq(&self, other: &Frac<BITS>) -> bool {
        self.value.is_same(other.value)
    }
}

impl<const BITS: u32> Eq for Frac<BITS> {
    ghost laws = { same_equivalence };
}

impl<const BITS: u32> PartialOrd for Frac<BITS> {
    ghost partial_cmp = { λ x y. Some (cmp_ℚ x y) };

    ghost laws = { partial_order };

    fn partial_cmp(&self, other: &Frac<BITS>) -> Option<Ordering> {
        Some(self.cmp(other))
    }
}

impl<const BITS: u32> Ord for Frac<BITS> {
    ghost cmp = { cmp_ℚ };

    ghost total = { cmp_total };

    ghost matches_partial_cmp = { λ x y. refl };

    ghost matches_eq = { cmp_matches_same };

    fn cmp(&self, other: &Frac<BITS>) -> Ordering {
        self.value.compare(other.value)
    }
}

impl<const BITS: u32> Hash for Frac<BITS> {
    ghost hash_input = { λ q. fed.i128 q.num ++ fed.u128 q.den };

    ghost respects_eq = { same_hash };

    fn hash<H: Hasher>(&self, state: &mut H) {
        self.value.numer().hash(state);
        self.value.denom().hash(state);
    }
}
