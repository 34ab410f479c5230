// The texts of quickest flows and arrivals.
ghost use Rattle.std.specs.Prelude.{◌≡◌, ◌<◌, [], ◌∷◌, ◌++◌, length, flat_map, map, OnOk, IfOk};
ghost use Rattle.std.specs.List.{enumerate_from};
ghost use Rattle.nf_frac_words.specs.Printed.{printed};
ghost use Rattle.nf_text_def.specs.Words.{line_of_words};
ghost use Rattle.nf_net_def.specs.Names.{name_at};
ghost use Rattle.nf_edge.specs.Writing.{state_of, Wrote};
ghost use Rattle.nf_report_pages.specs.Written.{after_words};
ghost use Rattle.nf_app_answers.specs.QuickText.{walk_line, cut_line, flow_text, arrival_text};

use crate::arrival::Arrival;
use crate::words::{link_word, put_number};
use nf_edge::{Sink, SinkFault};
use nf_frac::{Q, TextBuf};
use nf_net::{LinkId, Network, NodeId};
use nf_quick::{Quick, Rated};
use nf_report::{write_line, write_stop};
use nf_text::{push_bytes, push_word};
use std::alloc::{AllocError, Global};

// Appends a line: the word, and a number.
fn put_number_line(text: &mut Vec<u8>, key: &[u8], number: Q) -> Result<(), AllocError>
    ensures { OnOk result
        (text.new.items ≡ text.old.items ++ line_of_words (key.now ∷ printed number ∷ [])) }
{
    push_bytes(text, key)?;
    put_number(text, number)?;
    push_bytes(text, b"\n")?;
    Ok(())
}

// Appends the names of links, with a space before each.
fn put_links(text: &mut Vec<u8>, net: &Network, links: &[LinkId]) -> Result<(), AllocError>
    ensures { OnOk result (text.new.items
        ≡ text.old.items ++ after_words (map (name_at net.now.link_names) links.now)) }
{
    for link in links {
        push_word(text, link_word(net, *link))?;
    }
    Ok(())
}

// Appends the line of a walk.
fn put_walk(text: &mut Vec<u8>, net: &Network, walk: &Rated) -> Result<(), AllocError>
    ensures { OnOk result
        (text.new.items ≡ text.old.items ++ walk_line net.now.link_names walk.now) }
{
    push_bytes(text, b"walk")?;
    put_number(text, walk.rate)?;
    put_links(text, net, &walk.links)?;
    push_bytes(text, b"\n")?;
    Ok(())
}

// Appends the lines of the walks.
fn put_walks(text: &mut Vec<u8>, net: &Network, walks: &[Rated]) -> Result<(), AllocError>
    ensures { OnOk result
        (text.new.items ≡ text.old.items ++ flat_map (walk_line net.now.link_names) walks.now) }
{
    for walk in walks {
        put_walk(text, net, walk)?;
    }
    Ok(())
}

// Appends the line of a node's time.
fn put_time(text: &mut Vec<u8>, net: &Network, node: NodeId, time: Q) -> Result<(), AllocError>
    requires { node < net.now.net.nodes }
    ensures { OnOk result
        (text.new.items ≡ text.old.items ++ cut_line net.now.node_names (node, time)) }
{
    push_bytes(text, b"cut")?;
    push_word(text, net.node_name(node).as_bytes())?;
    put_number(text, time)?;
    push_bytes(text, b"\n")?;
    Ok(())
}

// Appends the lines of a cut.
fn put_cut(text: &mut Vec<u8>, net: &Network, cut: &[Q]) -> Result<(), AllocError>
    requires { length cut.now ≡ net.now.net.nodes }
    ensures { OnOk result (text.new.items
        ≡ text.old.items ++ flat_map (cut_line net.now.node_names) (enumerate_from 0 cut.now)) }
{
    for node in 0..net.node_count() {
        put_time(text, net, NodeId(node), cut[node as usize])?;
    }
    Ok(())
}

/// Returns the text of a quickest flow: its time, its walks with their rates, its cut and the cut's value. The cut has a time for each
/// node, and the value is an amount. Fails if an allocation fails.
pub fn flow_text(alloc: Global, net: &Network, quick: &Quick) -> Result<Vec<u8>, AllocError>
    requires { length quick.now.cut ≡ net.now.net.nodes }
    ensures { IfOk result (λ text. text.items ≡ flow_text net.now quick.now) }
{
    let mut text = Vec::new(alloc);
    put_number_line(&mut text, b"quick", quick.time)?;
    put_walks(&mut text, net, &quick.walks)?;
    put_cut(&mut text, net, &quick.cut)?;
    put_number_line(&mut text, b"value", quick.value)?;
    Ok(text)
}

/// Writes the line of the arrival. Allocates nothing.
///
/// The first fault ends the writing; the sink then took a proper prefix of the line.
pub fn write_arrival<O: Sink>(out: &mut O, arrival: &Arrival) -> Result<(), SinkFault>
    ensures { Wrote (state_of O.Sink out.old) (state_of O.Sink out.new)
        (arrival_text arrival.now) result }
{
    match arrival {
        Arrival::Never => write_line(out, b"equilibrium", &[b"none"]),
        Arrival::At(time) => {
            let mut word = TextBuf::new();
            time.write(&mut word);
            write_line(out, b"equilibrium", &[word.text()])
        }
        Arrival::Stopped(stop) => write_stop(out, b"equilibrium stopped", stop),
    }
}
