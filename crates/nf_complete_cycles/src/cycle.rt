// The first undirected cycle of chosen links. The search adds the links one by one, and looks for a path between the ends of each along the
// chosen links before it.
ghost use Rattle.std.specs.Prelude.{◌≡◌, ◌<◌, ◌^◌, not, length, IfOk, MatchOption, List, Bool, Option, None, []};
ghost use Rattle.nf_model.specs.Entries.{Has};
ghost use Rattle.nf_model.specs.Walk.{Hop as SeenHop};
ghost use Rattle.nf_model.specs.Pattern.{IsForest};
ghost use Rattle.nf_graph.specs.Graph.{AreBelow};
ghost use Rattle.nf_complete_cycles.specs.Cycles.{IsClosedTrail, IsFirstCycle, ClosesFirst, round_onto, lower_step as lower_of, lowest_from};

use crate::step::Step;
use crate::way::way;
use nf_graph::{Hop, LinkId};
use std::alloc::{AllocError, Global};

// Returns the step in the opposite direction.
fn turned(step: Step) -> Step
    ensures { result ≡ (step.0, not step.1) }
{
    Step {
        link: step.link,
        forward: !step.forward,
    }
}

// Returns the step along the lower link, or `best` if both use one link.
fn lower(best: Option<Step>, step: Step) -> Step
    ensures { result ≡ lower_of best step }
{
    match best {
        Some(best) => {
            if best.link.0 <= step.link.0 {
                best
            } else {
                step
            }
        }
        None => step,
    }
}

// Returns the step along the lowest link, or `None` without steps.
fn lowest(steps: &[Step]) -> Option<Step>
    ensures { result ≡ lowest_from None steps.now }
{
    let mut best = None;
    for step in steps {
        best = Some(lower(best, *step));
    }
    best
}

// Returns the steps in reverse order and opposite directions.
fn rounded(alloc: Global, steps: &[Step]) -> Result<Vec<Step>, AllocError>
    ensures { IfOk result (λ all. all.items ≡ round_onto [] steps.now) }
{
    let mut all = Vec::new(alloc);
    for step in steps {
        all.insert(0, turned(*step))?;
    }
    Ok(all)
}

// Returns the closed steps, reversed if they use their lowest link backward.
fn with_lowest_forward(alloc: Global, steps: Vec<Step>) -> Result<Vec<Step>, AllocError>
    ensures { (hops : List SeenHop) (chosen : List Bool) → IsClosedTrail hops chosen steps.items
        → IfOk result (λ all. IsFirstCycle hops chosen all.items) }
{
    if let Some(least) = lowest(&steps) {
        if !least.forward {
            return rounded(alloc, &steps);
        }
    }
    Ok(steps)
}

/// A cycle. `last` is its highest link, which closes the cycle.
#[derive(Drop)]
pub struct Cycle {
    pub steps: Vec<Step>,
    pub last: usize,
}

/// Returns the first cycle of chosen links, which uses its lowest link forward, or `None` if the chosen links are a forest. The chosen
/// links before `known` must be a forest; the search skips them.
pub fn first_cycle(
    alloc: Global,
    nodes: u32,
    hops: &[Hop],
    chosen: &[bool],
    known: usize,
) -> Result<Option<Cycle>, AllocError>
    requires ends { AreBelow nodes hops.now }
    requires count { length chosen.now ≡ length hops.now }
    requires fewer { length hops.now < 2 ^ 32 }
    requires known { IsForest hops.now (λ e. (e < known) × Has chosen.now e) }
    ensures { IfOk result (λ found. MatchOption found (IsForest hops.now (Has chosen.now))
        (λ cycle. ClosesFirst hops.now chosen.now cycle.last cycle.steps.items)) }
{
    let mut before = vec![in alloc; false; hops.len()]?;
    for (e, hop) in hops.iter().enumerate() {
        if chosen[e] && e < known {
            before[e] = true;
        } else if chosen[e] {
            match way(alloc, nodes, hops, &before, hop.tail, hop.head)? {
                Some(mut steps) => {
                    steps.push(Step {
                        link: LinkId(e as u32),
                        forward: true,
                    })?;
                    let steps = with_lowest_forward(alloc, steps)?;
                    return Ok(Some(Cycle { steps, last: e }));
                }
                None => before[e] = true,
            }
        }
    }
    Ok(None)
}
