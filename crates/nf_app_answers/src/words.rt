// Words of lines built in memory.
ghost use Rattle.std.specs.Prelude.{◌≡◌, ◌∷◌, ◌++◌, OnOk};
ghost use Rattle.nf_frac_words.specs.Printed.{printed};
ghost use Rattle.nf_net_def.specs.Names.{name_at};

use nf_frac::{Q, TextBuf};
use nf_net::{LinkId, Network, NodeId};
use nf_text::push_word;
use std::alloc::AllocError;

/// Appends a space and a number.
pub(crate) fn put_number(text: &mut Vec<u8>, number: Q) -> Result<(), AllocError>
    ensures { OnOk result (text.new.items ≡ text.old.items ++ 32 ∷ printed number) }
{
    let mut word = TextBuf::new();
    number.write(&mut word);
    push_word(text, word.text())
}

/// Returns the name of a link, or no bytes if no link has the number.
pub(crate) fn link_word(net: &Network, link: LinkId) -> &[u8]
    ensures { result.now ≡ name_at net.now.link_names link }
{
    // Proof: a network has a name for each link.
    net.recall();
    if link.0 < net.link_count() {
        net.link_name(link).as_bytes()
    } else {
        b""
    }
}

/// Returns the name of a node, or no bytes if no node has the number.
pub(crate) fn node_word(net: &Network, node: NodeId) -> &[u8]
    ensures { result.now ≡ name_at net.now.node_names node }
{
    // Proof: a network has a name for each node.
    net.recall();
    if node.0 < net.node_count() {
        net.node_name(node).as_bytes()
    } else {
        b""
    }
}
