// The lines of a flow by the nodes and links of a network, and the states of the links.
ghost use Rattle.std.specs.Prelude.{◌≡◌, ◌<◌, [], ◌∷◌, length, codes};
ghost use Rattle.nf_edge.specs.Writing.{state_of};
ghost use Rattle.nf_model.specs.Equilibrium.{HasShape};
ghost use Rattle.nf_net_def.specs.Names.{name_at};
ghost use Rattle.nf_net_def.specs.Report.{for_each, label_lines, link_lines, state_lines};
ghost use Rattle.nf_curve.specs.Flows.{seen_flow};
ghost use Rattle.nf_report_pages.specs.Written.{never_lines, flow_lines};
ghost use Rattle.nf_report_pages.specs.Pages.{GatheredLines};

use crate::causes::put_state;
use crate::curves::{put_curve, put_link};
use crate::line::put_line;
use crate::pages::Page;
use nf_curve::Flow;
use nf_edge::{Sink, SinkFault};
use nf_net::{LinkId, Network, NodeId};
use nf_pattern::Pattern;

// Puts the label of a node.
fn put_label<O: Sink>(
    out: &mut O,
    page: &mut Page,
    net: &Network,
    flow: &Flow,
    node: u32,
) -> Result<(), SinkFault>
    requires node { node < net.now.net.nodes }
    requires labels { length flow.now.labels.items ≡ net.now.net.nodes }
    ensures { GatheredLines (state_of O.Sink out.old) (state_of O.Sink out.new) page.old page.new
        (label_lines net.now (seen_flow flow.now) node) result }
{
    let name = net.node_name(NodeId(node)).as_bytes();
    let label = &flow.labels[node as usize];
    put_curve(out, page, b"label", name, label)
}

// Puts the labels of all nodes. The flow has a label curve for each.
fn put_labels<O: Sink>(
    out: &mut O,
    page: &mut Page,
    net: &Network,
    flow: &Flow,
) -> Result<(), SinkFault>
    requires { length flow.now.labels.items ≡ net.now.net.nodes }
    ensures { GatheredLines (state_of O.Sink out.old) (state_of O.Sink out.new) page.old page.new
        (for_each net.now.net.nodes (label_lines net.now (seen_flow flow.now))) result }
{
    for node in 0..net.node_count() {
        put_label(out, page, net, flow, node)?;
    }
    Ok(())
}

// Puts the curves of a link.
fn put_curves<O: Sink>(
    out: &mut O,
    page: &mut Page,
    net: &Network,
    flow: &Flow,
    link: u32,
) -> Result<(), SinkFault>
    requires link { link < length net.now.net.links }
    requires inflows { length flow.now.inflows.items ≡ length net.now.net.links }
    requires outflows { length flow.now.outflows.items ≡ length net.now.net.links }
    requires queues { length flow.now.queues.items ≡ length net.now.net.links }
    ensures { GatheredLines (state_of O.Sink out.old) (state_of O.Sink out.new) page.old page.new
        (link_lines net.now (seen_flow flow.now) link) result }
{
    let name = net.link_name(LinkId(link)).as_bytes();
    let inflow = &flow.inflows[link as usize];
    let outflow = &flow.outflows[link as usize];
    let queue = &flow.queues[link as usize];
    put_link(out, page, name, inflow, outflow, queue)
}

// Puts the curves of all links. The flow has an inflow, an outflow and a queue for each.
fn put_links<O: Sink>(
    out: &mut O,
    page: &mut Page,
    net: &Network,
    flow: &Flow,
) -> Result<(), SinkFault>
    requires inflows { length flow.now.inflows.items ≡ length net.now.net.links }
    requires outflows { length flow.now.outflows.items ≡ length net.now.net.links }
    requires queues { length flow.now.queues.items ≡ length net.now.net.links }
    ensures { GatheredLines (state_of O.Sink out.old) (state_of O.Sink out.new) page.old page.new
        (for_each (length net.now.net.links) (link_lines net.now (seen_flow flow.now))) result }
{
    for link in 0..net.link_count() {
        put_curves(out, page, net, flow, link)?;
    }
    Ok(())
}

// Puts the state of a link in the last phase.
fn put_state_of<O: Sink>(
    out: &mut O,
    page: &mut Page,
    net: &Network,
    last: &Pattern,
    link: u32,
) -> Result<(), SinkFault>
    requires link { link < length net.now.net.links }
    requires states { length last.now ≡ length net.now.net.links }
    ensures { GatheredLines (state_of O.Sink out.old) (state_of O.Sink out.new) page.old page.new
        (state_lines net.now last.now link) result }
{
    let name = net.link_name(LinkId(link)).as_bytes();
    let state = last.state(LinkId(link));
    put_state(out, page, name, state)
}

/// Puts a line on the page for each link that has a state in the pattern. The pattern has an entry for each link. After an `Err` the page
/// is empty.
pub fn put_states<O: Sink>(
    out: &mut O,
    page: &mut Page,
    net: &Network,
    last: &Pattern,
) -> Result<(), SinkFault>
    requires { length last.now ≡ length net.now.net.links }
    ensures { GatheredLines (state_of O.Sink out.old) (state_of O.Sink out.new) page.old page.new
        (for_each (length net.now.net.links) (state_lines net.now last.now)) result }
{
    for link in 0..net.link_count() {
        put_state_of(out, page, net, last, link)?;
    }
    Ok(())
}

// Puts the line of an unreached node.
fn put_never<O: Sink>(
    out: &mut O,
    page: &mut Page,
    net: &Network,
    node: u32,
) -> Result<(), SinkFault>
    requires { node < length net.now.idle_nodes }
    ensures { GatheredLines (state_of O.Sink out.old) (state_of O.Sink out.new) page.old page.new
        ((codes "never" ∷ name_at net.now.idle_nodes node ∷ []) ∷ []) result }
{
    let name = net.idle_name(node).as_bytes();
    put_line(out, page, b"never", &[name])
}

// Puts the unreached nodes.
fn put_idle<O: Sink>(out: &mut O, page: &mut Page, net: &Network) -> Result<(), SinkFault>
    ensures { GatheredLines (state_of O.Sink out.old) (state_of O.Sink out.new) page.old page.new
        (never_lines net.now.idle_nodes) result }
{
    for node in 0..net.idle_count() {
        put_never(out, page, net, node)?;
    }
    Ok(())
}

/// Puts the lines of a flow on the page: the labels of all nodes, the unreached nodes, and the curves of all links. The flow has a curve
/// for each node and link. After an `Err` the page is empty.
pub fn put_flow<O: Sink>(
    out: &mut O,
    page: &mut Page,
    net: &Network,
    flow: &Flow,
) -> Result<(), SinkFault>
    requires { HasShape net.now.net (seen_flow flow.now) }
    ensures { GatheredLines (state_of O.Sink out.old) (state_of O.Sink out.new) page.old page.new
        (flow_lines net.now (seen_flow flow.now)) result }
{
    put_labels(out, page, net, flow)?;
    put_idle(out, page, net)?;
    put_links(out, page, net, flow)
}
