// The greatest length of a phase.
ghost use Rattle.std.specs.Prelude.{◌≡◌, ◌≢◌, ◌<◌, length, true, MatchOption, IfOk, IfSome};
ghost use Rattle.nf_rational.specs.Operations.{0ℚ};
ghost use Rattle.nf_rational.specs.Order.{◌<ℚ◌};
ghost use Rattle.nf_frac_def.specs.declared.Part.TheVariants.{Extend};
ghost use Rattle.nf_frac_def.specs.Passing.{passes_Q};
ghost use Rattle.nf_frac_def.specs.Checked.{at_part};
ghost use Rattle.nf_model.specs.Network.{Link as SeenLink, IsLink, ArePieces, next_change as change_of};
ghost use Rattle.nf_model.specs.Phases.{IsExtension, IsUnending};
ghost use Rattle.nf_rational.specs.Signs.{is_zero as is_zero_by, are_opposite as are_opposite_by};
ghost use Rattle.nf_thin_def.specs.Extend.{lesser as lesser_of, to_zero as to_zero_by, after_link as after_link_by};
ghost use Rattle.nf_thin_def.specs.Extend.{least_after, until_change as until_change_by, extend_list};
ghost use Rattle.nf_phase_def.specs.ToEnd.{end_after as end_after_by, end_list};
ghost use Rattle.nf_phase_length.specs.Lengths.{after_all};

use nf_frac::{Part, PassedAt, Q, at};
use nf_graph::LinkId;
use nf_net::Network;

// Returns whether one number is above 0 and the other below 0.
fn are_opposite(x: Q, y: Q) -> bool
    ensures { result ≡ are_opposite_by x y }
{
    x.is_below(Q::zero()) && Q::zero().is_below(y) || Q::zero().is_below(x) && y.is_below(Q::zero())
}

// Returns the lesser of the length so far, if there is one, and another length.
fn lesser(least: Option<Q>, length: Q) -> Option<Q>
    ensures { result ≡ lesser_of least length }
{
    match least {
        Some(least) => Some(least.lesser(length)),
        None => Some(length),
    }
}

// Returns the least length, including the time in which a slack reaches 0 if it moves towards 0.
fn to_zero(goes: bool, least: Option<Q>, slack: Q, change: Q) -> Result<Option<Q>, PassedAt<Q>>
    requires { goes ≡ true → change ≢ 0ℚ }
    ensures { result ≡ at_part Extend (to_zero_by passes_Q goes least slack change) }
{
    if !goes {
        return Ok(least);
    }
    let less = at!(Part::Extend, Q::zero().difference(slack));
    let length = at!(Part::Extend, less.quotient(change));
    Ok(lesser(least, length))
}

// Returns the least length, including the time in which the slack of a link reaches 0 with these slopes of its ends.
#[tactic(auto, using(nf_rational_laws::proofs::SignTests::opposite_apart))]
fn after_link(
    least: Option<Q>,
    slack: Q,
    tail_slope: Q,
    head_slope: Q,
) -> Result<Option<Q>, PassedAt<Q>>
    ensures { result ≡ at_part Extend
        (after_link_by passes_Q (is_zero_by slack) least slack tail_slope head_slope) }
{
    if slack.is_zero() {
        return Ok(least);
    }
    let change = at!(Part::Extend, head_slope.difference(tail_slope));
    to_zero(are_opposite(slack, change), least, slack, change)
}

// Returns the least length, including the time in which the slack of this link reaches 0.
fn after(
    net: &Network,
    slacks: &[Q],
    slopes: &[Q],
    least: Option<Q>,
    link: LinkId,
) -> Result<Option<Q>, PassedAt<Q>>
    requires link { link < length net.now.net.links }
    requires slacks { length slacks.now ≡ length net.now.net.links }
    requires slopes { length slopes.now ≡ net.now.net.nodes }
    ensures { (here : SeenLink) → IsLink net.now.net link here
        → result ≡ at_part Extend (least_after passes_Q slacks.now slopes.now least (link, here)) }
{
    let here = net.link(link);
    after_link(
        least,
        slacks[link.index()],
        slopes[here.tail.index()],
        slopes[here.head.index()],
    )
}

// Returns the least time in which the nonzero slack of a link reaches 0, or None if none does.
fn after_links(net: &Network, slacks: &[Q], slopes: &[Q]) -> Result<Option<Q>, PassedAt<Q>>
    requires slacks { length slacks.now ≡ length net.now.net.links }
    requires slopes { length slopes.now ≡ net.now.net.nodes }
    ensures { result ≡ at_part Extend (after_all passes_Q net.now.net slacks.now slopes.now) }
{
    let mut least = None;
    for e in 0..net.link_count() {
        least = after(net, slacks, slopes, least, LinkId(e))?;
    }
    Ok(least)
}

// Returns the least length, including the time until the next change of the inflow rate, if there is one.
fn until_change(least: Option<Q>, time: Q, change: Option<Q>) -> Result<Option<Q>, PassedAt<Q>>
    ensures { result ≡ at_part Extend (until_change_by passes_Q least time change) }
{
    match change {
        None => Ok(least),
        Some(change) => {
            let length = at!(Part::Extend, change.difference(time));
            Ok(lesser(least, length))
        }
    }
}

// Returns the next change of the inflow rate after a time, or None if there is none. The pieces of a network are in order.
fn next_change(net: &Network, time: Q) -> Option<Q>
    ensures change { result ≡ change_of net.now.net time }
    ensures pieces { ArePieces net.now.net.pieces }
{
    // Proof: the network is that of an accepted file, so its pieces are in order.
    net.recall();
    net.next_change(time)
}

/// Returns the extension length of a phase (Koch and Skutella 2011) that begins at `time`, with these slacks of the links and slopes of the
/// nodes. It is the greatest length with slack at most 0 on each inactive link and at least 0 on each resetting link. No change of the
/// inflow rate comes before its end. Returns None exactly if every length is possible. Refuses with Passed, of the part Extend, exactly at
/// the first operation of the extend list that exceeds its bound. Allocates nothing.
#[tactic(auto, unfolding(nf_thin_def::specs::Extend::extend_list))]
pub fn extension(
    net: &Network,
    slacks: &[Q],
    slopes: &[Q],
    time: Q,
) -> Result<Option<Q>, PassedAt<Q>>
    requires slacks { length slacks.now ≡ length net.now.net.links }
    requires slopes { length slopes.now ≡ net.now.net.nodes }
    ensures list { result
        ≡ at_part Extend (extend_list passes_Q net.now.net slacks.now slopes.now time) }
    ensures length { IfOk result
        (λ length. MatchOption length (IsUnending net.now.net slacks.now slopes.now time)
        (IsExtension net.now.net slacks.now slopes.now time)) }
{
    let least = after_links(net, slacks, slopes)?;
    until_change(least, time, next_change(net, time))
}

// Returns the departure after this length, or None if the length is unlimited.
fn end_after(time: Q, length: Option<Q>) -> Result<Option<Q>, PassedAt<Q>>
    ensures { result ≡ at_part Extend (end_after_by passes_Q time length) }
{
    match length {
        None => Ok(None),
        Some(length) => {
            let end = at!(Part::Extend, time.sum(length));
            Ok(Some(end))
        }
    }
}

/// Returns the departure at which a phase of greatest length ends. The phase begins at `time`, with these slacks of the links and slopes of
/// the nodes. Returns None exactly if every length is possible. Refuses with Passed, of the part Extend, exactly at the first operation of
/// the extend list without a horizon that exceeds its bound. Allocates nothing.
#[tactic(auto, unfolding(nf_phase_def::specs::ToEnd::end_list))]
pub fn end_of(net: &Network, slacks: &[Q], slopes: &[Q], time: Q) -> Result<Option<Q>, PassedAt<Q>>
    requires slacks { length slacks.now ≡ length net.now.net.links }
    requires slopes { length slopes.now ≡ net.now.net.nodes }
    ensures list { result
        ≡ at_part Extend (end_list passes_Q net.now.net slacks.now slopes.now time) }
    ensures later { IfOk result (λ end. IfSome end (λ departure. time <ℚ departure)) }
{
    let length = extension(net, slacks, slopes, time)?;
    end_after(time, length)
}
