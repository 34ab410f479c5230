// Exits of links into a node, by departure.
ghost use Rattle.std.specs.Prelude.{◌<◌, length, Some, option_map};
ghost use Rattle.nf_frac_def.specs.declared.Part.TheVariants.{Check};
ghost use Rattle.nf_frac_def.specs.Passing.{passes_Q};
ghost use Rattle.nf_frac_def.specs.Checked.{at_part, Gives};
ghost use Rattle.nf_model.specs.Network.{Link, IsLink};
ghost use Rattle.nf_model.specs.Equilibrium.{points_at};
ghost use Rattle.nf_curve_def.specs.Composed.{checked_composed};
ghost use Rattle.nf_check_def.specs.Curves.{loaded_at as loaded_by, least_so_far as lesser_by, with_exit as with_exit_by, least_exits as least_by};
ghost use Rattle.nf_check_rules.specs.Exits.{AreStored};
ghost use Rattle.nf_check_rules.specs.Views.{network_in, labels_in, loaded_in};

use crate::exits::Exits;
use crate::worked::{Worked, label_at, loaded_at};
use nf_curve::Curve;
use nf_frac::{Halt, Part, Q};
use nf_graph::{LinkId, NodeId};
use std::alloc::Global;

// Returns the exit of a link by departure: a departure enters the link at the label of the link's tail.
fn exit_along(alloc: Global, worked: &Worked, link: LinkId) -> Result<Curve, Halt<Q>>
    requires { link < length (network_in worked.now).links }
    ensures { (here : Link) → IsLink (network_in worked.now) link here
        → Gives (λ c. c.points) (λ q. q) result
        (at_part Check (checked_composed passes_Q (loaded_by (loaded_in worked.now) link).exit
        (points_at (labels_in worked.now) here.tail)
        worked.now.flow.now.reached)) }
{
    let tail = worked.net.link(link).tail;
    let exit = &loaded_at(worked.loaded, link).exit;
    let label = label_at(worked, tail);
    Curve::compose(alloc, exit, label, worked.flow.reached, Part::Check)
}

// Returns the lesser of `curve` and the curve so far, or `curve` if there is none so far.
fn lesser(alloc: Global, so_far: Option<Curve>, curve: Curve) -> Result<Curve, Halt<Q>>
    ensures { Gives (λ c. Some c.points) (λ q. q) result
        (at_part Check (lesser_by passes_Q (option_map (λ c. c.points) so_far) curve.points)) }
{
    match so_far {
        None => Ok(curve),
        Some(so_far) => Curve::least(alloc, &so_far, &curve, Part::Check),
    }
}

// Returns the least exit so far, including the link's exit if the link leads to the node. Stores that exit in `exits`.
fn with_exit(
    alloc: Global,
    worked: &Worked,
    node: NodeId,
    so_far: Option<Curve>,
    link: LinkId,
    exits: &mut Exits,
) -> Result<Option<Curve>, Halt<Q>>
    requires link { link < length (network_in worked.now).links }
    requires kept { AreStored worked.now exits.old }
    ensures list { (here : Link) → IsLink (network_in worked.now) link here
        → Gives (λ o. option_map (λ c. c.points) o) (λ q. q) result
        (at_part Check (with_exit_by passes_Q (labels_in worked.now)
        (loaded_in worked.now) worked.now.flow.now.reached node
        (option_map (λ c. c.points) so_far) (link, here))) }
    ensures kept { AreStored worked.now exits.new }
{
    if worked.net.link(link).head != node {
        return Ok(so_far);
    }
    let exit = exit_along(alloc, worked, link)?;
    exits.keep(alloc, link, &exit)?;
    let least = lesser(alloc, so_far, exit)?;
    Ok(Some(least))
}

/// Returns the least exit of the links into a node, by departure up to the one reached, or `None` if no link leads to the node. Stores the
/// exits it computes in `exits`, even if it refuses at a later link. An operation that passes has part Check.
pub fn least_exits(
    alloc: Global,
    worked: &Worked,
    node: NodeId,
    exits: &mut Exits,
) -> Result<Option<Curve>, Halt<Q>>
    requires { AreStored worked.now exits.old }
    ensures list { Gives (λ o. option_map (λ c. c.points) o) (λ q. q) result
        (at_part Check
        (least_by passes_Q (labels_in worked.now) (loaded_in worked.now) worked.now.flow.now.reached
        (network_in worked.now).links node)) }
    ensures kept { AreStored worked.now exits.new }
{
    let mut least = None;
    for number in 0..worked.net.link_count() {
        let link = LinkId(number);
        least = with_exit(alloc, worked, node, least, link, exits)?;
    }
    Ok(least)
}
