// A caller of nf_linear.
ghost use Rattle.std.specs.Prelude.{◌≡◌, [], ◌∷◌, IfOk};
ghost use Rattle.nf_rational.specs.Operations.{0ℚ, 1ℚ, neg_ℚ, ◌+ℚ◌, ◌/ℚ◌};
ghost use Rattle.nf_rational.specs.Order.{◌<ℚ◌};

use nf_frac::{Halt, Q};
use nf_linear::{Solved, Table, solve};
use std::alloc::{AllocError, Global};

// Returns the equations: the flows add to the rate, and each takes the same share of its capacity.
fn equations(alloc: Global, rate: Q, first: Q, second: Q) -> Result<Table<Q>, AllocError>
    ensures { IfOk result
        (λ table. table ≡ (1ℚ ∷ 1ℚ ∷ rate ∷ []) ∷ (second ∷ neg_ℚ first ∷ 0ℚ ∷ []) ∷ []) }
{
    let mut table = Table::new(alloc, 2)?;
    table.set(0, 0, Q::one());
    table.set(0, 1, Q::one());
    table.set_right(0, rate);
    table.set(1, 0, second);
    table.set(1, 1, first.negated());
    Ok(table)
}

/// Splits a rate over two parallel links so that both take the same share of their capacities, which must be above 0. Fails if an
/// operation passes the bound, or if an allocation fails.
pub fn split_rate(alloc: Global, rate: Q, first: Q, second: Q) -> Result<(Q, Q), Halt<Q>>
    requires first { 0ℚ <ℚ first }
    requires second { 0ℚ <ℚ second }
    ensures whole { IfOk result (λ flows. flows.0 +ℚ flows.1 ≡ rate) }
    ensures shares { IfOk result (λ flows. flows.0 /ℚ first ≡ flows.1 /ℚ second) }
{
    let table = equations(alloc, rate, first, second)?;
    match solve(alloc, table)? {
        Solved::One(flows) => Ok((flows[0], flows[1])),
        Solved::NotOne => unreachable!(),
    }
}
