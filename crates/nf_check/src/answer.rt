// The answer of a check.
ghost use Rattle.std.specs.Prelude.{◌≡◌};
ghost use Rattle.nf_frac_def.specs.Checked.{Gives};
ghost use Rattle.nf_check_def.specs.declared.Answer.TheVariants.{No};
ghost use Rattle.nf_check_def.specs.Trial.{Trial, answer_of as answer_by};
ghost use Rattle.nf_check_rules.specs.Trials.{Tries};

use nf_check_def::CheckRule;
use nf_check_rules::{Ended, Subject};
use nf_curve::Difference;
use nf_frac::{Halt, Q};
use nf_graph::{LinkId, NodeId};

/// The answer of a check: the flow is an equilibrium, or it breaks a rule. `No` holds the first broken rule, the node or link, the time,
/// and two different values.
pub type Answer = nf_check_def::Answer<NodeId, LinkId, Q>;

// Returns `No` with the two values that differ.
fn no(rule: CheckRule, subject: Subject, sides: Difference) -> Answer
    ensures { result ≡ No rule subject sides.time sides.left sides.right }
{
    Answer::No {
        rule,
        subject,
        time: sides.time,
        left: sides.left,
        right: sides.right,
    }
}

/// Converts the result of the tests to the answer, or to the operation that passes or the failed allocation.
pub(crate) fn answer_of(tested: Result<(), Ended>) -> Result<Answer, Halt<Q>>
    ensures { (trial : Trial (Unit {0})) → Tries (λ _. tt) tested trial
        → Gives (λ answer. answer) (λ q. q) result (answer_by trial) }
{
    match &tested {
        Ok(()) => Ok(Answer::Yes),
        Err(Ended::AtNode { rule, node, sides }) => Ok(no(*rule, Subject::Node(*node), *sides)),
        Err(Ended::AtLink { rule, link, sides }) => Ok(no(*rule, Subject::Link(*link), *sides)),
        Err(Ended::Passed(passed)) => Err(Halt::Passed(*passed)),
        Err(Ended::Memory) => Err(Halt::Memory),
    }
}
