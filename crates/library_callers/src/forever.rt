// Whether a network can carry its last supply rate for ever.
ghost use Rattle.std.specs.Prelude.{◌≡◌, None, length, IfOk, IfSome, MatchBool};
ghost use Rattle.nf_rational.specs.Operations.{1ℚ};
ghost use Rattle.nf_rational.specs.Order.{le_ℚ};
ghost use Rattle.nf_model.specs.Entries.{number_at};
ghost use Rattle.library_callers.specs.Supplies.{CutsCarry, HasNoTail};

use nf_forever::{Tail, solve_forever};
use nf_frac::Q;
use nf_net::Network;
use nf_phase::Budgets;
use std::alloc::{AllocError, Global};

// Returns whether the sink's label grows by at most 1 per unit of departure time.
fn is_level(net: &Network, tail: &Tail) -> bool
    requires { length tail.now.slopes.items ≡ net.now.net.nodes }
    ensures { result ≡ le_ℚ (number_at tail.now.slopes.items net.now.net.sink) 1ℚ }
{
    let slope = tail.slopes[net.sink().index()];
    slope.is_at_most(Q::one())
}

/// Returns whether each static cut has at least the capacity of the last supply rate. Travel times in an equilibrium then stay constant in
/// the end, and otherwise grow without end. Returns None if the budgets end the run, or an operation exceeds its bound. Fails if an
/// allocation fails.
pub fn carries_supply(
    alloc: Global,
    net: &Network,
    budgets: Budgets,
) -> Result<Option<bool>, AllocError>
    ensures carries { IfOk result (λ found.
        IfSome found (λ yes. MatchBool yes (CutsCarry net.now.net) (CutsCarry net.now.net → ⊥))) }
    ensures none { IfOk result
        (λ found. found ≡ None → HasNoTail net.now.net budgets.phases budgets.patterns) }
{
    // Proof: the sink is a node.
    net.recall();
    let forever = solve_forever(alloc, net, budgets)?;
    match &forever.tail {
        Some(tail) => Ok(Some(is_level(net, tail))),
        None => Ok(None),
    }
}
