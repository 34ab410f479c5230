// The text of a run without a horizon.
ghost use Rattle.std.specs.Prelude.{◌≡◌, [], ◌∷◌, ◌++◌, length, codes, IfSome};
ghost use Rattle.std.specs.Option.{option_copied};
ghost use Rattle.nf_edge.specs.Writing.{state_of, Wrote};
ghost use Rattle.nf_report_pages.specs.Pages.{GatheredLines};
ghost use Rattle.nf_forever_def.specs.ForeverText.{HasForm, tail_lines, forever_lines, forever_text};
ghost use Rattle.nf_forever.specs.Seen.{forever_in};
ghost use Rattle.nf_forever.specs.Parts.{head_lines, end_lines};

use crate::forever::Forever;
use crate::tail_lines::put_tail;
use nf_curve::Stop;
use nf_edge::{Sink, SinkFault, write_text};
use nf_frac::Q;
use nf_net::Network;
use nf_report::{Page, put_cause, put_flow, put_line, put_number, put_states};

// Puts the departure reached, and why the run stopped.
fn put_head<O: Sink>(
    out: &mut O,
    page: &mut Page,
    reached: Q,
    stopped: Option<&Stop>,
) -> Result<(), SinkFault>
    ensures { GatheredLines (state_of O.Sink out.old) (state_of O.Sink out.new) page.old page.new
        (head_lines reached (option_copied stopped.entry)) result }
{
    put_line(out, page, b"forever", &[b"1"])?;
    put_number(out, page, b"reached", reached)?;
    put_cause(out, page, stopped)
}

// Puts the tail, if there is one.
fn put_tail_of<O: Sink>(
    out: &mut O,
    page: &mut Page,
    net: &Network,
    forever: &Forever,
) -> Result<(), SinkFault>
    requires { IfSome (forever_in forever.now).tail
        (λ tail. (length tail.slopes ≡ net.now.net.nodes)
        × (length tail.flows ≡ length net.now.net.links)) }
    ensures { GatheredLines (state_of O.Sink out.old) (state_of O.Sink out.new) page.old page.new
        (tail_lines net.now (forever_in forever.now).tail) result }
{
    match &forever.tail {
        None => Ok(()),
        Some(tail) => put_tail(out, page, net, tail),
    }
}

// Puts the states of the links, the tail, and the end.
fn put_end<O: Sink>(
    out: &mut O,
    page: &mut Page,
    net: &Network,
    forever: &Forever,
) -> Result<(), SinkFault>
    requires { HasForm net.now.net (forever_in forever.now) }
    ensures { GatheredLines (state_of O.Sink out.old) (state_of O.Sink out.new) page.old page.new
        (end_lines net.now (forever_in forever.now)) result }
{
    put_states(out, page, net, &forever.last)?;
    put_tail_of(out, page, net, forever)?;
    put_line(out, page, b"end", &[])
}

// Puts the whole text.
fn put_forever<O: Sink>(
    out: &mut O,
    page: &mut Page,
    net: &Network,
    forever: &Forever,
) -> Result<(), SinkFault>
    requires { HasForm net.now.net (forever_in forever.now) }
    ensures { GatheredLines (state_of O.Sink out.old) (state_of O.Sink out.new) page.old page.new
        (forever_lines net.now (forever_in forever.now)) result }
{
    put_head(out, page, forever.flow.reached, forever.stopped.as_ref())?;
    put_flow(out, page, net, &forever.flow)?;
    put_end(out, page, net, forever)
}

/// Writes the text of a run without a horizon: the flow up to the departure reached, why the run stopped if it did, the states of the
/// links, and the tail by which the flow continues forever if there is one. Times, amounts and rates are exact fractions. Allocates
/// nothing.
///
/// The run must have the form of the network: a curve, a state, a slope and a flow for each node or link of the network. The first fault
/// ends the writing; the sink then took a proper prefix of the text.
pub fn write_forever<O: Sink>(
    net: &Network,
    forever: &Forever,
    out: &mut O,
) -> Result<(), SinkFault>
    requires { HasForm net.now.net (forever_in forever.now) }
    ensures { Wrote (state_of O.Sink out.old) (state_of O.Sink out.new)
        (forever_text net.now (forever_in forever.now)) result }
{
    let mut page = Page::new();
    put_forever(out, &mut page, net, forever)?;
    write_text(out, page.as_slice())
}
