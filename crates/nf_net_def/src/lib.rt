//! This crate states what the files and the printed texts mean. A text stands for a network, or breaks a first rule. A network has a
//! canonical text, a report has a text, and the cause of a stop has words. `specs/` holds the definitions, and docs/FORMATS.md states
//! them in prose. The code contains only plain enums that code and definitions share. All formats are this project's own.
#![tactic(auto)]

ghost use Rattle.std.specs.Prelude.{◌≡◌};

use nf_frac_def::PassedAt;
use std::alloc::AllocError;

/// A rule of the network file. The page docs/FORMATS.md states each rule.
#[derive(Clone, Copy, Debug)]
pub enum NetRule {
    /// A line has a byte that is not printable ASCII, a space or a tab.
    N1,
    /// A line has more than 1,000 bytes.
    N2,
    /// The first content line is neither `nfot 1` nor `nfot 2`.
    N3,
    /// A content line follows `end`.
    N4,
    /// The first word of a line is not a keyword.
    N5,
    /// A line does not have the number of words that its keyword needs.
    N6,
    /// A name does not consist of 1 to 24 allowed characters.
    N7,
    /// A word is not a number where a number is needed.
    N8,
    /// A `source` or `sink` line is the second of its kind, or a link's name was used before.
    N9,
    /// The file has a 65th node.
    N10,
    /// The file has a 201st link.
    N11,
    /// The file has a 201st inflow line.
    N12,
    /// A transit time is negative.
    N13,
    /// A capacity is not greater than 0.
    N14,
    /// A start or a rate is negative.
    N15,
    /// A start is not greater than the start before it.
    N16,
    /// The file has no `end` line.
    N17,
    /// The file has no `source` line, or no `sink` line.
    N18,
    /// Source and sink are the same node.
    N19,
    /// Some node (in version 2: the sink) is not reachable from the source.
    N20,
    /// Some links of transit time 0 form a cycle.
    N21,
    /// For some link, the least transit sum of its tail plus its own transit time passes the bound.
    N22,
}

/// The cause of a stop before the horizon. A report's `cause` line states it. Phases and patterns are counted from 1.
#[derive(Copy)]
pub enum Cause<S> {
    /// The run made as many phases as allowed.
    Phases {
        made: u64,
    },
    /// The run tried as many patterns as allowed in this phase.
    Patterns {
        phase: u64,
        tried: u64,
    },
    /// An operation passes the bound in this phase. `place` is the number of the pattern tried, if the operation belongs to one.
    Passed {
        phase: u64,
        place: Option<u64>,
        at: PassedAt<S>,
    },
    /// No pattern is accepted in this phase. This does not occur in any run.
    NoPattern {
        phase: u64,
    },
}

impl<S: Copy> Clone for Cause<S> {
    ghost is_clone = { λ x y. y ≡ x };

    fn clone(&self) -> Result<Self, AllocError> {
        Ok(*self)
    }
}
