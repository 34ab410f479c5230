// Reasons for the end of a check.
ghost use Rattle.std.specs.Prelude.{◌≡◌, option_map};
ghost use Rattle.nf_check_def.specs.Trial.{unless as unless_by};
ghost use Rattle.nf_curve.specs.Differences.{difference_of};
ghost use Rattle.nf_check_rules.specs.Trials.{of_halt, Tries};
ghost use Rattle.nf_check_rules.specs.declared.ended.Ended.TheVariants as Ended;

use crate::subject::Subject;
use nf_check_def::CheckRule;
use nf_curve::Difference;
use nf_frac::{Halt, PassedAt, Q};
use nf_graph::{LinkId, NodeId};
use std::alloc::{AllocError, AllocFailed};

/// The reason why a check ended early.
#[derive(Clone, Copy)]
pub enum Ended {
    /// A node breaks a rule, with two different values.
    AtNode {
        rule: CheckRule,
        node: NodeId,
        sides: Difference,
    },
    /// A link breaks a rule, with two different values.
    AtLink {
        rule: CheckRule,
        link: LinkId,
        sides: Difference,
    },
    /// An operation passes.
    Passed(PassedAt<Q>),
    /// An allocation failed.
    Memory,
}

impl From<PassedAt<Q>> for Ended {
    ghost from_gives = { λ passed ended. ended ≡ Ended.Passed passed };

    fn from(passed: PassedAt<Q>) -> Self {
        Ended::Passed(passed)
    }
}

impl From<Halt<Q>> for Ended {
    ghost from_gives = { λ halt ended. ended ≡ of_halt halt };

    fn from(halt: Halt<Q>) -> Self {
        match halt {
            Halt::Passed(passed) => Ended::Passed(passed),
            Halt::Memory => Ended::Memory,
        }
    }
}

impl From<AllocError> for Ended {
    ghost from_gives = { λ _ ended. ended ≡ Ended.Memory };

    fn from(_: AllocError) -> Self {
        Ended::Memory
    }
}

impl<T: Drop> From<AllocFailed<T>> for Ended {
    ghost from_gives = { λ _ ended. ended ≡ Ended.Memory };

    fn from(_: AllocFailed<T>) -> Self {
        Ended::Memory
    }
}

/// Returns an error for the difference, if there is one.
pub fn unless(
    rule: CheckRule,
    subject: Subject,
    difference: Option<Difference>,
) -> Result<(), Ended>
    ensures { Tries (λ _. tt) result
        (unless_by rule subject (option_map difference_of difference)) }
{
    let Some(sides) = difference else {
        return Ok(());
    };
    Err(match subject {
        Subject::Node(node) => Ended::AtNode { rule, node, sides },
        Subject::Link(link) => Ended::AtLink { rule, link, sides },
    })
}
