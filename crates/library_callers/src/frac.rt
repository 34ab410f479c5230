// A caller of nf_frac.
ghost use Rattle.std.specs.Prelude.{◌≡◌, true, IfOk, IfErr};
ghost use Rattle.nf_rational.specs.Operations.{◌+ℚ◌};
ghost use Rattle.nf_frac_def.specs.Passing.{passes_Q};

use nf_frac::{Passed, Q};

/// Returns the exact mean of two fractions. Returns an error only if the operation that it names passes the bound.
pub fn mean(left: Q, right: Q) -> Result<Q, Passed<Q>>
    ensures mean { IfOk result (λ m. m +ℚ m ≡ left +ℚ right) }
    ensures passed { IfErr result (λ p. passes_Q p.op p.left p.right ≡ true) }
{
    let two = Q::one().sum(Q::one())?;
    let sum = left.sum(right)?;
    sum.quotient(two)
}
