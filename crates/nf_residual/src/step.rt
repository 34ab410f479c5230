// Forward and backward steps along links.
ghost use Rattle.std.specs.Prelude.{◌≡◌};
ghost use Rattle.nf_rational.specs.Operations.{0ℚ};
ghost use Rattle.nf_rational.specs.Order.{lt_ℚ};
ghost use Rattle.nf_frac_def.specs.declared.Part.TheVariants.{Quick};
ghost use Rattle.nf_frac_def.specs.Passing.{passes_Q};
ghost use Rattle.nf_frac_def.specs.Checked.{checked_at};
ghost use Rattle.nf_quick_def.specs.Steps.{begin_of as begin_by, end_of as end_by, can_go as can_go_by};
ghost use Rattle.nf_quick_def.specs.Rounds.{op_of};

use nf_frac::{Part, PassedAt, Q};
use nf_graph::{LinkId, NodeId};
use nf_net::Link;
use std::marker::Model;

/// A step along a link: forward from its tail to its head, or backward from head to tail.
#[derive(Clone, Copy)]
pub struct Step {
    pub link: LinkId,
    pub forward: bool,
}

impl Model for Step {
    ghost use Rattle.nf_quick_def.specs.Steps.{Step as SeenStep};
    ghost use Rattle.nf_quick_def.specs.Codes.{coded_step};

    ghost Value = { SeenStep };

    ghost coded = { coded_step };

    ghost view = { λ a. record { link = a.link; forward = a.forward } };

    ghost inverse = { λ s. record { link = s.link; forward = s.forward } };
}

/// A residual walk, its length and its room. The length is a time, in which a backward step counts minus its transit time. The room is a
/// rate, the least residual capacity of its steps.
#[derive(Drop)]
pub struct Walk {
    pub steps: Vec<Step>,
    pub length: Q,
    pub room: Q,
}

impl Model for Walk {
    ghost use Rattle.nf_quick_def.specs.Rounds.{Walk as SeenWalk};
    ghost use Rattle.nf_quick_def.specs.Codes.{coded_walk};

    ghost Value = { SeenWalk };

    ghost coded = { coded_walk };

    ghost view = { λ w. record { steps = w.steps.items; length = w.length; room = w.room } };
}

// Returns `number` plus `change` for a forward step, and minus `change` for a backward one. Refuses with Passed, of the part Quick, exactly
// if the operation exceeds its bound.
pub(crate) fn changed(forward: bool, number: Q, change: Q) -> Result<Q, PassedAt<Q>>
    ensures { result ≡ checked_at passes_Q Quick (op_of forward) number change }
{
    if forward {
        Ok(nf_frac::at!(Part::Quick, number.sum(change)))
    } else {
        Ok(nf_frac::at!(Part::Quick, number.difference(change)))
    }
}

// Returns the node where a step along this link begins.
pub(crate) fn begin_of(forward: bool, link: &Link) -> NodeId
    ensures { result ≡ begin_by forward link.now }
{
    if forward { link.tail } else { link.head }
}

// Returns the node where a step along this link ends.
pub(crate) fn end_of(forward: bool, link: &Link) -> NodeId
    ensures { result ≡ end_by forward link.now }
{
    if forward { link.head } else { link.tail }
}

// Returns whether the flow is above 0.
#[tactic(auto, using(crate::proofs::Signs::above_zero))]
fn is_some(flow: &Q) -> bool
    ensures { result ≡ lt_ℚ 0ℚ flow.now }
{
    0 < flow.numer()
}

// Returns whether the step has residual capacity: a backward step needs flow above 0, a forward step a flow below the capacity.
#[tactic(auto, using(crate::proofs::Signs::less_by_order))]
pub(crate) fn can_go(forward: bool, capacity: &Option<Q>, flow: &Q) -> bool
    ensures { result ≡ can_go_by forward capacity.now flow.now }
{
    if !forward {
        return is_some(flow);
    }
    match capacity {
        None => true,
        Some(capacity) => flow < capacity,
    }
}
