// Order, equality and hash of small numbers. None of these can fail.
ghost use Rattle.std.specs.Prelude.{◌≡◌, ◌++◌, refl, Some};
ghost use Rattle.std.specs.Hash as fed;
ghost use Rattle.nf_rational.specs.Order.{cmp_ℚ};
ghost use Rattle.nf_frac.specs.Order.{same_ℚ};
ghost use Rattle.nf_frac.specs.Total.{cmp_total, cmp_matches_same, same_equivalence, same_partial_equivalence, partial_order, same_small_hash};

use crate::small::Small;
use std::cmp::Ordering;
use std::hash::{Hash, Hasher};

impl PartialEq for Small {
    ghost eq = { same_ℚ };

    ghost laws = { same_partial_equivalence };

    fn eq(&self, other: &Small) -> bool {
        self.is_same(*other)
    }
}

impl Eq for Small {
    ghost laws = { same_equivalence };
}

impl PartialOrd for Small {
    ghost partial_cmp = { λ x y. Some (cmp_ℚ x y) };

    ghost laws = { partial_order };

    fn partial_cmp(&self, other: &Small) -> Option<Ordering> {
        Some(self.cmp(other))
    }
}

impl Ord for Small {
    ghost cmp = { cmp_ℚ };

    ghost total = { cmp_total };

    ghost matches_partial_cmp = { λ x y. refl };

    ghost matches_eq = { cmp_matches_same };

    fn cmp(&self, other: &Small) -> Ordering {
        self.compare(*other)
    }
}

impl Hash for Small {
    ghost hash_input = { λ q. fed.i64 q.num ++ fed.u64 q.den };

    ghost respects_eq = { same_small_hash };

    fn hash<H: Hasher>(&self, state: &mut H) {
        self.numer().hash(state);
        self.denom().hash(state);
    }
}
