// Rejected patterns.
use crate::fault::SearchFault;
use nf_frac::{PassedAt, Q};
use nf_graph::NodeId;

/// The record of rejected patterns. `tried` is their number. `passed` has the place of the first one of which an operation passes, and its
/// first passing operation. `node` is the node that rejected the last pattern without a table.
#[derive(Clone, Copy)]
pub(crate) struct Vain {
    pub(crate) tried: u64,
    pub(crate) passed: Option<(u64, PassedAt<Q>)>,
    pub(crate) node: NodeId,
}

impl Vain {
    ghost use Rattle.std.specs.Prelude.{◌≡◌};
    ghost use Rattle.nf_thin.specs.FirstPassing.{or_first, search_fault};

    /// Records that an operation of the last pattern passes, unless an earlier pattern is recorded.
    pub(crate) fn note(&mut self, at: PassedAt<Q>)
        ensures passed { self.new.passed ≡ or_first self.old.passed (self.old.tried, at) }
        ensures tried { self.new.tried ≡ self.old.tried }
    {
        if self.passed.is_none() {
            self.passed = Some((self.tried, at));
        }
    }

    /// Returns the cause for which nothing was found, if no pattern is left.
    pub(crate) fn fault(self) -> SearchFault
        ensures { result ≡ search_fault self.passed }
    {
        match self.passed {
            Some((place, at)) => SearchFault::Passed { place, at },
            None => SearchFault::NoPattern,
        }
    }
}
