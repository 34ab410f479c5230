// Comparison of two curves.
ghost use Rattle.nf_rational.specs.Operations.{0ℚ};
ghost use Rattle.nf_rational.specs.Order.{◌≤ℚ◌};
ghost use Rattle.nf_frac_def.specs.Passing.{passes_Q};
ghost use Rattle.nf_check_rules.specs.Steps.{compared_by};
ghost use Rattle.nf_check_rules.specs.Trials.{Tries};

use crate::ended::{Ended, unless};
use crate::subject::Subject;
use nf_check_def::CheckRule;
use nf_curve::Curve;
use nf_frac::{Part, Q};

/// Compares two curves up to the time `last`, at least 0. If they differ, returns the first corner at which they do as an error.
pub fn compare(
    rule: CheckRule,
    subject: Subject,
    left: &Curve,
    right: &Curve,
    last: Q,
) -> Result<(), Ended>
    requires { 0ℚ ≤ℚ last }
    ensures { Tries (λ _. tt) result
        (compared_by passes_Q rule subject left.now.points right.now.points last) }
{
    let difference = Curve::first_difference(left, right, last, Part::Check)?;
    unless(rule, subject, difference)
}
