// Whether a flow is an equilibrium.
ghost use Rattle.std.specs.Prelude.{◌≡◌, ◌≢◌, IfOk, MatchBool};
ghost use Rattle.nf_model.specs.Equilibrium.{Equilibrium};
ghost use Rattle.nf_check_def.specs.declared.Answer.TheVariants.{Yes};
ghost use Rattle.nf_curve.specs.Flows.{seen_flow};
ghost use Rattle.nf_check.specs.Given.{IsGivenFlow};

use nf_check::{Answer, check};
use nf_curve::Flow;
use nf_frac::{Halt, Q};
use nf_net::Network;
use std::alloc::Global;

// Returns whether the answer is yes.
fn is_yes(answer: Answer) -> bool
    ensures { MatchBool result (answer ≡ Yes) (answer ≢ Yes) }
{
    matches!(answer, Answer::Yes)
}

/// Returns whether a flow is an equilibrium (a Nash flow over time) up to the departure that it reached. Refuses if an operation exceeds
/// its bound, or if an allocation fails.
pub fn is_equilibrium(alloc: Global, net: &Network, flow: &Flow) -> Result<bool, Halt<Q>>
    requires { IsGivenFlow net.now.net flow.now }
    ensures { IfOk result (λ yes. MatchBool yes (Equilibrium net.now.net (seen_flow flow.now))
        (Equilibrium net.now.net (seen_flow flow.now) → ⊥)) }
{
    match check(alloc, net, flow) {
        Ok(answer) => Ok(is_yes(answer)),
        Err(halt) => Err(halt),
    }
}
