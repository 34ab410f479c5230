// The causes for which a search finds nothing.
use nf_frac::{PassedAt, Q};
use std::alloc::AllocError;

/// The cause for which no thin flow was found.
#[derive(Clone, Copy)]
pub enum SearchFault {
    /// The listing is longer than the budget, and none of its first `tried` patterns is accepted.
    Budget { tried: u64 },
    /// No pattern is accepted, and an operation of some pattern passes. `place` is that of the first such pattern, and `at` its first
    /// passing operation.
    Passed { place: u64, at: PassedAt<Q> },
    /// No pattern is accepted, and no operation passes.
    NoPattern,
    /// An allocation failed.
    Memory,
}

impl From<AllocError> for SearchFault {
    ghost use Rattle.std.specs.Prelude.{◌≡◌};
    ghost use Rattle.nf_thin.specs.declared.fault.SearchFault.TheVariants as SearchFault;

    ghost from_gives = { λ _ fault. fault ≡ SearchFault.Memory };

    fn from(_: AllocError) -> Self {
        SearchFault::Memory
    }
}
