// The lines of a tail: the slope of each node's label, and the flow of each link.
ghost use Rattle.std.specs.Prelude.{◌≡◌, ◌<◌, [], ◌∷◌, ◌++◌, length};
ghost use Rattle.nf_edge.specs.Writing.{state_of};
ghost use Rattle.nf_model.specs.Entries.{number_at};
ghost use Rattle.nf_frac_words.specs.Printed.{printed};
ghost use Rattle.nf_net_def.specs.Report.{for_each};
ghost use Rattle.nf_report_pages.specs.Pages.{GatheredLines};
ghost use Rattle.nf_forever_def.specs.ForeverText.{slope_line, flow_line};
ghost use Rattle.nf_forever.specs.Seen.{tail_in};

use crate::forever::Tail;
use nf_edge::{Sink, SinkFault};
use nf_frac::{Q, TextBuf};
use nf_net::{LinkId, Network, NodeId};
use nf_report::{Page, put_line};

// Returns the number of this index.
fn at_place(numbers: &[Q], place: u32) -> Q
    requires { place < length numbers.now }
    ensures { result ≡ number_at numbers.now place }
{
    numbers[place as usize]
}

// Puts the number of a node or a link, with its name.
fn put_named<O: Sink>(
    out: &mut O,
    page: &mut Page,
    key: &[u8],
    name: &[u8],
    number: Q,
) -> Result<(), SinkFault>
    ensures { GatheredLines (state_of O.Sink out.old) (state_of O.Sink out.new) page.old page.new
        ((key.now ∷ name.now ∷ printed number ∷ []) ∷ []) result }
{
    let mut text = TextBuf::new();
    number.write(&mut text);
    put_line(out, page, key, &[name, text.text()])
}

// Puts the slope of a node's label.
fn put_slope<O: Sink>(
    out: &mut O,
    page: &mut Page,
    net: &Network,
    tail: &Tail,
    node: u32,
) -> Result<(), SinkFault>
    requires node { node < net.now.net.nodes }
    requires slopes { length tail.now.slopes.items ≡ net.now.net.nodes }
    ensures { GatheredLines (state_of O.Sink out.old) (state_of O.Sink out.new) page.old page.new
        (slope_line net.now (tail_in tail.now) node) result }
{
    let name = net.node_name(NodeId(node)).as_bytes();
    let slope = at_place(&tail.slopes, node);
    put_named(out, page, b"slope", name, slope)
}

// Puts the slopes of all labels.
fn put_slopes<O: Sink>(
    out: &mut O,
    page: &mut Page,
    net: &Network,
    tail: &Tail,
) -> Result<(), SinkFault>
    requires { length tail.now.slopes.items ≡ net.now.net.nodes }
    ensures { GatheredLines (state_of O.Sink out.old) (state_of O.Sink out.new) page.old page.new
        (for_each net.now.net.nodes (slope_line net.now (tail_in tail.now))) result }
{
    for node in 0..net.node_count() {
        put_slope(out, page, net, tail, node)?;
    }
    Ok(())
}

// Puts the flow of a link.
fn put_flow<O: Sink>(
    out: &mut O,
    page: &mut Page,
    net: &Network,
    tail: &Tail,
    link: u32,
) -> Result<(), SinkFault>
    requires link { link < length net.now.net.links }
    requires flows { length tail.now.flows.items ≡ length net.now.net.links }
    ensures { GatheredLines (state_of O.Sink out.old) (state_of O.Sink out.new) page.old page.new
        (flow_line net.now (tail_in tail.now) link) result }
{
    let name = net.link_name(LinkId(link)).as_bytes();
    let flow = at_place(&tail.flows, link);
    put_named(out, page, b"flow", name, flow)
}

// Puts the flows of all links.
fn put_flows<O: Sink>(
    out: &mut O,
    page: &mut Page,
    net: &Network,
    tail: &Tail,
) -> Result<(), SinkFault>
    requires { length tail.now.flows.items ≡ length net.now.net.links }
    ensures { GatheredLines (state_of O.Sink out.old) (state_of O.Sink out.new) page.old page.new
        (for_each (length net.now.net.links) (flow_line net.now (tail_in tail.now))) result }
{
    for link in 0..net.link_count() {
        put_flow(out, page, net, tail, link)?;
    }
    Ok(())
}

/// Puts the lines of a tail on the page.
pub(crate) fn put_tail<O: Sink>(
    out: &mut O,
    page: &mut Page,
    net: &Network,
    tail: &Tail,
) -> Result<(), SinkFault>
    requires slopes { length tail.now.slopes.items ≡ net.now.net.nodes }
    requires flows { length tail.now.flows.items ≡ length net.now.net.links }
    ensures { GatheredLines (state_of O.Sink out.old) (state_of O.Sink out.new) page.old page.new
        (for_each net.now.net.nodes (slope_line net.now (tail_in tail.now))
        ++ for_each (length net.now.net.links) (flow_line net.now (tail_in tail.now))) result }
{
    put_slopes(out, page, net, tail)?;
    put_flows(out, page, net, tail)
}
