// The canonical text of a network.
ghost use Rattle.std.specs.Prelude.{◌≡◌, ◌<◌, ◌∷◌, ◌++◌, ◌⊎◌, codes, [], length, map, flat_map, IfOk, OnOk, Ok};
ghost use Rattle.nf_frac_words.specs.Digits.{digits_of};
ghost use Rattle.nf_frac_words.specs.Printed.{printed};
ghost use Rattle.nf_text_def.specs.Words.{line_of_words};
ghost use Rattle.nf_net_def.specs.Names.{name_at};
ghost use Rattle.nf_net_def.specs.Numbers.{capacity_word};
ghost use Rattle.nf_net_def.specs.Named.{active_links};
ghost use Rattle.nf_net_def.specs.WellNamed.{IsNamed};
ghost use Rattle.nf_net_def.specs.NetText.{link_words, inflow_words, canonical};
ghost use Rattle.nf_net_def.specs.NetFile.{Reads};
ghost use Rattle.nf_net.specs.Printing.{head_text, PushesLink};

use crate::network::Network;
use nf_frac::{Q, TextBuf};
use nf_graph::{LinkId, NodeId};
use nf_net_file::{NamedLink, Piece};
use nf_text::{push_bytes, push_line, push_word};
use std::alloc::{AllocError, Global};

// Returns the word for a capacity: its number, or `inf` for an unbounded link.
fn capacity_text(capacity: Option<Q>, room: &mut TextBuf) -> &[u8]
    ensures { result.now ≡ capacity_word capacity }
{
    match capacity {
        Some(capacity) => {
            capacity.write(room);
            room.text()
        }
        None => b"inf",
    }
}

fn push_link(
    out: &mut Vec<u8>,
    name: &str,
    tail: &str,
    head: &str,
    transit: Q,
    capacity: Option<Q>,
) -> Result<(), AllocError>
    ensures { OnOk result (out.new.items ≡ out.old.items
        ++ line_of_words
        (link_words
        (record { name = name.now; tail = tail.now; head = head.now; transit = transit; capacity = capacity }))) }
{
    let mut time = TextBuf::new();
    transit.write(&mut time);
    let mut room = TextBuf::new();
    let capacity = capacity_text(capacity, &mut room);
    push_bytes(out, b"link")?;
    push_word(out, name.as_bytes())?;
    push_word(out, tail.as_bytes())?;
    push_word(out, head.as_bytes())?;
    push_word(out, time.text())?;
    push_word(out, capacity)?;
    push_bytes(out, b"\n")?;
    Ok(())
}

// Appends the line of the link with this number.
fn push_numbered(out: &mut Vec<u8>, net: &Network, id: LinkId) -> Result<(), AllocError>
    requires { id < length net.now.net.links }
    ensures { OnOk result (PushesLink net.now id out.old.items out.new.items) }
{
    let found = net.link(id);
    let name = net.link_name(id);
    let tail = net.node_name(found.tail);
    let head = net.node_name(found.head);
    push_link(out, name, tail, head, found.transit, found.capacity)?;
    Ok(())
}

// Appends the lines of the links that are not idle.
fn push_links(out: &mut Vec<u8>, net: &Network) -> Result<(), AllocError>
    requires { IsNamed net.now }
    ensures { OnOk result (out.new.items
        ≡ out.old.items ++ flat_map line_of_words (map link_words (active_links net.now))) }
{
    for index in 0..net.link_count() {
        push_numbered(out, net, LinkId(index))?;
    }
    Ok(())
}

// Appends the lines of the idle links.
fn push_idle(out: &mut Vec<u8>, links: &[NamedLink]) -> Result<(), AllocError>
    ensures { OnOk result
        (out.new.items ≡ out.old.items ++ flat_map line_of_words (map link_words links.now)) }
{
    for link in links {
        let name = link.name.text();
        let tail = link.tail.text();
        let head = link.head.text();
        push_link(out, name, tail, head, link.transit, link.capacity)?;
    }
    Ok(())
}

fn push_piece(out: &mut Vec<u8>, piece: &Piece) -> Result<(), AllocError>
    ensures { OnOk result
        (out.new.items ≡ out.old.items ++ line_of_words (inflow_words piece.now)) }
{
    let mut start = TextBuf::new();
    piece.start.write(&mut start);
    let mut rate = TextBuf::new();
    piece.rate.write(&mut rate);
    push_line(out, b"inflow", &[start.text(), rate.text()])
}

fn push_pieces(out: &mut Vec<u8>, pieces: &[Piece]) -> Result<(), AllocError>
    ensures { OnOk result
        (out.new.items ≡ out.old.items ++ flat_map line_of_words (map inflow_words pieces.now)) }
{
    for piece in pieces {
        push_piece(out, piece)?;
    }
    Ok(())
}

// Appends the line of the version.
fn push_version(out: &mut Vec<u8>, version: u32) -> Result<(), AllocError>
    requires { (version ≡ 1) ⊎ (version ≡ 2) }
    ensures { OnOk result
        (out.new.items ≡ out.old.items ++ line_of_words (codes "nfot" ∷ digits_of version ∷ [])) }
{
    if version == 1 {
        return push_line(out, b"nfot", &[b"1"]);
    }
    push_line(out, b"nfot", &[b"2"])
}

// Appends a line with the keyword `key` and the name of the node.
fn push_node(out: &mut Vec<u8>, key: &[u8], net: &Network, node: NodeId) -> Result<(), AllocError>
    requires { node < net.now.net.nodes }
    ensures { OnOk result (out.new.items
        ≡ out.old.items ++ line_of_words (key.now ∷ name_at net.now.node_names node ∷ [])) }
{
    let name = net.node_name(node);
    push_line(out, key, &[name.as_bytes()])
}

// Appends the head: the lines of version, source and sink.
fn push_head(out: &mut Vec<u8>, net: &Network) -> Result<(), AllocError>
    ensures { OnOk result (out.new.items ≡ out.old.items ++ head_text net.now) }
{
    let version = net.version();
    let source = net.source();
    let sink = net.sink();
    push_version(out, version)?;
    push_node(out, b"source", net, source)?;
    push_node(out, b"sink", net, sink)?;
    Ok(())
}

fn whole_text(alloc: Global, net: &Network) -> Result<Vec<u8>, AllocError>
    ensures canonical { IfOk result (λ text. text.items ≡ canonical net.now) }
    ensures named { IsNamed net.now }
{
    let pieces = net.pieces();
    let mut out = Vec::new(alloc);
    push_head(&mut out, net)?;
    push_links(&mut out, net)?;
    push_idle(&mut out, net.idle_links())?;
    push_pieces(&mut out, pieces)?;
    push_line(&mut out, b"end", &[])?;
    Ok(out)
}

/// Returns the canonical text of a network. Its lines are the version, the source, the sink, the links in order, the idle links in order,
/// the pieces in order, and `end`. Parsing the text returns the same network, with the same names. Fails if an allocation fails.
pub fn text(alloc: Global, net: &Network) -> Result<Vec<u8>, AllocError>
    ensures canonical { IfOk result (λ text. text.items ≡ canonical net.now) }
    ensures reads_back { IfOk result (λ text. Reads text.items (Ok net.now)) }
{
    let text = whole_text(alloc, net)?;
    Ok(text)
}
