// The curves of a report, by number. The labels of the nodes precede the idle nodes. The inflow, the outflow and the queue of each link
// follow.
ghost use Rattle.std.specs.Prelude.{◌≡◌, ◌<◌, length, option_map, slice_get};
ghost use Rattle.nf_report_def.specs.ReportLines.{key_word, curve_keys};
ghost use Rattle.nf_report_lines.specs.Keys.{seen_kind, seen_key, key_of_number, link_keys, is_some_key, kind_of_three as kind_by_three};

use nf_net::{LinkId, Network, NodeId};
use nf_text::is_word;

/// The kind of a curve. `Never` marks an idle node, which has no curve.
#[derive(Clone, Copy)]
pub enum Kind {
    Label,
    Never,
    Inflow,
    Outflow,
    Queue,
}

/// The key of a curve. `name` is the name of its node or link.
#[derive(Clone, Copy)]
pub struct Key<'a> {
    pub kind: Kind,
    pub name: &'a [u8],
}

impl Kind {
    /// Returns the first word of the curve's lines.
    pub(crate) fn word(self) -> &'static [u8]
        ensures { result.now ≡ key_word (seen_kind self) }
    {
        match self {
            Kind::Label => b"label",
            Kind::Never => b"never",
            Kind::Inflow => b"inflow",
            Kind::Outflow => b"outflow",
            Kind::Queue => b"queue",
        }
    }
}

/// Returns the number of curves of a report of the network, including one for each idle node.
pub(crate) fn curve_count(net: &Network) -> usize
    ensures { result ≡ length (curve_keys net.now) }
{
    // Proof: each node and each link has a name.
    net.recall();
    net.node_count() as usize + net.idle_count() as usize + 3 * net.link_count() as usize
}

// Returns the kind of a link's curve: inflow for 0, outflow for 1, queue for any other number.
fn kind_of_three(place: usize) -> Kind
    ensures { seen_kind result ≡ kind_by_three place }
{
    match place {
        0 => Kind::Inflow,
        1 => Kind::Outflow,
        _ => Kind::Queue,
    }
}

// Returns the key of a link's curve. `index` counts the curves of links, which follow those of nodes.
fn link_key(net: &Network, index: usize) -> Option<Key<'_>>
    ensures { option_map seen_key result ≡ slice_get (link_keys net.now.link_names) index }
{
    // Proof: each link has a name.
    net.recall();
    let link = index / 3;
    if link >= net.link_count() as usize {
        return None;
    }
    let kind = kind_of_three(index % 3);
    let name = net.link_name(LinkId(link as u32)).as_bytes();
    Some(Key { kind, name })
}

/// Returns the key of the curve with this number, if there is one.
pub fn key_at(net: &Network, index: usize) -> Option<Key<'_>>
    ensures { option_map seen_key result ≡ key_of_number net.now index }
{
    // Proof: each node has a name.
    net.recall();
    let nodes = net.node_count() as usize;
    if index < nodes {
        let name = net.node_name(NodeId(index as u32)).as_bytes();
        return Some(Key {
            kind: Kind::Label,
            name,
        });
    }
    let behind = index - nodes;
    let idle = net.idle_count() as usize;
    if behind < idle {
        let name = net.idle_name(behind as u32).as_bytes();
        return Some(Key {
            kind: Kind::Never,
            name,
        });
    }
    link_key(net, behind - idle)
}

/// Returns whether the curve with this number exists and has this kind and name.
pub(crate) fn is_key_at(net: &Network, index: usize, kind: Kind, name: &[u8]) -> bool
    ensures { result ≡ is_some_key (seen_kind kind) name.now (key_of_number net.now index) }
{
    match key_at(net, index) {
        Some(key) => is_word(key.kind.word(), kind.word()) && is_word(key.name, name),
        None => false,
    }
}
