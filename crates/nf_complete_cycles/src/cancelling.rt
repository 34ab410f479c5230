// Cancelling a cycle.
ghost use Rattle.std.specs.Prelude.{◌≡◌, ◌<◌, ◌^◌, length, Some, None, unwrap_or};
ghost use Rattle.nf_rational.specs.Operations.{0ℚ};
ghost use Rattle.nf_frac_def.specs.declared.Part.TheVariants.{Verdict};
ghost use Rattle.nf_frac_def.specs.Passing.{passes_Q};
ghost use Rattle.nf_frac_def.specs.Checked.{at_part, each, Gives};
ghost use Rattle.std.specs.List.{enumerate_from};
ghost use Rattle.nf_complete_def.specs.Interior.{turn_of};
ghost use Rattle.nf_complete_def.specs.Cancelling.{room_on, room_at, lesser_room, least_room, change_on, change_at, cancel_list};

use crate::step::Step;
use nf_frac::{Halt, Part, PassedAt, Q, at};
use nf_graph::LinkId;
use std::alloc::Global;

// Returns the direction in which the steps use a link, or `None` if they do not.
fn turn(steps: &[Step], link: LinkId) -> Option<bool>
    ensures { result ≡ turn_of steps.now link }
{
    for step in steps {
        let step: Step = *step;
        if step.link == link {
            return Some(step.forward);
        }
    }
    None
}

// Returns how much the link may change in the direction `turn`. `None` means no limit.
fn room(turn: Option<bool>, full: Option<Q>, flow: Q) -> Result<Option<Q>, PassedAt<Q>>
    ensures { result ≡ at_part Verdict (room_on passes_Q turn full flow) }
{
    match turn {
        Some(true) => match full {
            Some(full) => {
                let room = at!(Part::Verdict, full.difference(flow));
                Ok(Some(room))
            }
            None => Ok(None),
        },
        Some(false) => Ok(Some(flow)),
        None => Ok(None),
    }
}

// Returns the flow after it changes by `amount` in the direction `turn`.
fn change(turn: Option<bool>, amount: Q, flow: Q) -> Result<Q, PassedAt<Q>>
    ensures { result ≡ at_part Verdict (change_on passes_Q turn amount flow) }
{
    match turn {
        Some(true) => {
            let more = at!(Part::Verdict, flow.sum(amount));
            Ok(more)
        }
        Some(false) => {
            let less = at!(Part::Verdict, flow.difference(amount));
            Ok(less)
        }
        None => Ok(flow),
    }
}

// Returns the room of the link with the number `link`.
fn room_of(
    steps: &[Step],
    fulls: &[Option<Q>],
    link: usize,
    flow: Q,
) -> Result<Option<Q>, PassedAt<Q>>
    requires link { link < length fulls.now }
    requires fewer { length fulls.now < 2 ^ 32 }
    ensures { result ≡ at_part Verdict (room_at passes_Q steps.now fulls.now (link, flow)) }
{
    room(turn(steps, LinkId(link as u32)), fulls[link], flow)
}

fn change_of(steps: &[Step], amount: Q, link: usize, flow: Q) -> Result<Q, PassedAt<Q>>
    requires { link < 2 ^ 32 }
    ensures { result ≡ at_part Verdict (change_at passes_Q steps.now amount (link, flow)) }
{
    change(turn(steps, LinkId(link as u32)), amount, flow)
}

// Returns the rooms of all links.
fn rooms(
    alloc: Global,
    steps: &[Step],
    fulls: &[Option<Q>],
    flows: &[Q],
) -> Result<Vec<Option<Q>>, Halt<Q>>
    requires count { length fulls.now ≡ length flows.now }
    requires fewer { length fulls.now < 2 ^ 32 }
    ensures { Gives (λ rooms. rooms.items) (λ q. q) result
        (at_part Verdict
        (each (room_at passes_Q steps.now fulls.now) (enumerate_from 0 flows.now))) }
{
    let mut rooms = Vec::new(alloc);
    for (e, flow) in flows.iter().enumerate() {
        let next = room_of(steps, fulls, e, *flow)?;
        rooms.push(next)?;
    }
    Ok(rooms)
}

// Returns the flows of all links after the links of the cycle change by `amount`.
fn changes(alloc: Global, steps: &[Step], amount: Q, flows: &[Q]) -> Result<Vec<Q>, Halt<Q>>
    requires { length flows.now < 2 ^ 32 }
    ensures { Gives (λ new. new.items) (λ q. q) result
        (at_part Verdict
        (each (change_at passes_Q steps.now amount) (enumerate_from 0 flows.now))) }
{
    let mut new = Vec::new(alloc);
    for (e, flow) in flows.iter().enumerate() {
        let next = change_of(steps, amount, e, *flow)?;
        new.push(next)?;
    }
    Ok(new)
}

// Returns the lesser of two rooms. `None` means no limit.
fn lesser(room: Option<Q>, rest: Option<Q>) -> Option<Q>
    ensures { result ≡ lesser_room room rest }
{
    match room {
        Some(room) => match rest {
            Some(rest) => Some(room.lesser(rest)),
            None => Some(room),
        },
        None => rest,
    }
}

// Returns the least room, or `None` if no link limits the cycle.
fn least(rooms: &[Option<Q>]) -> Option<Q>
    ensures { result ≡ least_room rooms.now }
{
    let mut least = None;
    for done in 0..rooms.len() {
        least = lesser(rooms[rooms.len() - 1 - done], least);
    }
    least
}

// Returns the least room, or 0 if no link limits the cycle.
fn amount(room: Option<Q>) -> Q
    ensures { result ≡ unwrap_or room 0ℚ }
{
    match room {
        Some(room) => room,
        None => Q::zero(),
    }
}

/// Cancels a cycle: returns the flows after its forward links grow and its backward links shrink by one amount. The amount is the greatest
/// for which each flow stays between 0 and the flow that fills its link, or 0 if no link limits it. Returns `Passed` exactly at the first
/// operation that passes, with part Verdict. Otherwise fails if an allocation fails.
#[tactic(auto, unfolding(nf_complete_def::specs::Cancelling::cancel_list))]
pub fn cancel(
    alloc: Global,
    steps: &[Step],
    fulls: &[Option<Q>],
    flows: &[Q],
) -> Result<Vec<Q>, Halt<Q>>
    requires count { length fulls.now ≡ length flows.now }
    requires fewer { length fulls.now < 2 ^ 32 }
    ensures { Gives (λ new. new.items) (λ q. q) result
        (at_part Verdict (cancel_list passes_Q steps.now fulls.now flows.now)) }
{
    let rooms = rooms(alloc, steps, fulls, flows)?;
    let amount = amount(least(&rooms));
    let new = changes(alloc, steps, amount, flows)?;
    Ok(new)
}
