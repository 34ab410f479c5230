// The text of a settled thin flow.
ghost use Rattle.std.specs.Prelude.{◌≡◌, ◌<◌, [], ◌∷◌, length, codes};
ghost use Rattle.nf_frac_words.specs.Printed.{printed};
ghost use Rattle.nf_net_def.specs.Names.{name_at};
ghost use Rattle.nf_net_def.specs.Report.{for_each};
ghost use Rattle.nf_edge.specs.Writing.{state_of, Wrote};
ghost use Rattle.nf_report_pages.specs.Pages.{GatheredLines};
ghost use Rattle.nf_complete_def.specs.SettleText.{flow_line, settled_lines, settled_text};

use nf_complete::Settled;
use nf_edge::{Sink, SinkFault, write_text};
use nf_frac::{Q, TextBuf};
use nf_net::{LinkId, Network};
use nf_report::{Page, put_line, put_states};

// Puts the line of a link's flow.
fn put_flow<O: Sink>(
    out: &mut O,
    page: &mut Page,
    net: &Network,
    link: u32,
    flow: Q,
) -> Result<(), SinkFault>
    requires { link < length net.now.net.links }
    ensures { GatheredLines (state_of O.Sink out.old) (state_of O.Sink out.new) page.old page.new
        ((codes "flow" ∷ name_at net.now.link_names link ∷ printed flow ∷ []) ∷ []) result }
{
    let name = net.link_name(LinkId(link)).as_bytes();
    let mut word = TextBuf::new();
    flow.write(&mut word);
    put_line(out, page, b"flow", &[name, word.text()])
}

// Puts the lines of the flows of all links.
fn put_flows<O: Sink>(
    out: &mut O,
    page: &mut Page,
    net: &Network,
    flows: &[Q],
) -> Result<(), SinkFault>
    requires { length flows.now ≡ length net.now.net.links }
    ensures { GatheredLines (state_of O.Sink out.old) (state_of O.Sink out.new) page.old page.new
        (for_each (length net.now.net.links) (flow_line net.now flows.now)) result }
{
    for link in 0..net.link_count() {
        put_flow(out, page, net, link, flows[link as usize])?;
    }
    Ok(())
}

// Puts all lines: the states, the flows and the end.
fn put_settled<O: Sink>(
    out: &mut O,
    page: &mut Page,
    net: &Network,
    settled: &Settled,
) -> Result<(), SinkFault>
    requires flows { length settled.now.flows.items ≡ length net.now.net.links }
    requires states { length settled.now.pattern ≡ length net.now.net.links }
    ensures { GatheredLines (state_of O.Sink out.old) (state_of O.Sink out.new) page.old page.new
        (settled_lines net.now settled.now.pattern settled.now.flows.items) result }
{
    put_states(out, page, net, &settled.pattern)?;
    put_flows(out, page, net, &settled.flows)?;
    put_line(out, page, b"end", &[])
}

/// Writes a settled thin flow: the states of the links that have one, and the flows of all links, which are rates. Allocates nothing.
///
/// `settled` must have a state entry and a flow for each link. The first fault ends the writing; the sink then took a proper prefix of the
/// text.
pub fn write_settled<O: Sink>(
    out: &mut O,
    net: &Network,
    settled: &Settled,
) -> Result<(), SinkFault>
    requires flows { length settled.now.flows.items ≡ length net.now.net.links }
    requires states { length settled.now.pattern ≡ length net.now.net.links }
    ensures { Wrote (state_of O.Sink out.old) (state_of O.Sink out.new)
        (settled_text net.now settled.now.pattern settled.now.flows.items) result }
{
    let mut page = Page::new();
    put_settled(out, &mut page, net, settled)?;
    write_text(out, page.as_slice())
}
