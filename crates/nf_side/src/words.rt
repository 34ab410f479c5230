// The links, nodes and numbers that words stand for.
ghost use Rattle.std.specs.Prelude.{◌≡◌, false, MatchOption};
ghost use Rattle.std.specs.Result.{result_ok};
ghost use Rattle.nf_frac_words.specs.Numbers as numerals;
ghost use Rattle.nf_net_def.specs.Names.{has_name};
ghost use Rattle.nf_net_def.specs.Numbers.{greatest};
ghost use Rattle.nf_side.specs.NameAt.{IsNameAt};

use nf_frac::Q;
use nf_net::{LinkId, Network, NodeId};
use nf_text::is_word;

/// Returns the link that a word names; None exactly if no link has this name. Idle links are not considered.
#[tactic(auto, using(crate::proofs::NamesOf::link_is_there, crate::proofs::NamesOf::no_link_text))]
pub fn link_of(net: &Network, word: &[u8]) -> Option<LinkId>
    ensures { MatchOption result (has_name net.now.link_names word.now ≡ false)
        (λ link. IsNameAt net.now.link_names word.now link) }
{
    // Proof: names of links differ.
    net.recall();
    match std::str::from_utf8(word) {
        Ok(name) => net.link_named(name),
        Err(_) => None,
    }
}

/// Returns the link that a word names, as `link_of` does. The name of the link `near` is compared first, for speed: neighbouring
/// lines of a file often name the same link.
pub fn link_near(net: &Network, word: &[u8], near: LinkId) -> Option<LinkId>
    ensures { MatchOption result (has_name net.now.link_names word.now ≡ false)
        (λ link. IsNameAt net.now.link_names word.now link) }
{
    // Proof: names of links differ.
    net.recall();
    if near.0 < net.link_count() {
        let name = net.link_name(near);
        if is_word(name.as_bytes(), word) {
            return Some(near);
        }
    }
    link_of(net, word)
}

/// Returns the node that a word names; None exactly if no node has this name. Idle nodes are not considered.
#[tactic(auto, using(crate::proofs::NamesOf::node_is_there, crate::proofs::NamesOf::no_node_text))]
pub fn node_of(net: &Network, word: &[u8]) -> Option<NodeId>
    ensures { MatchOption result (has_name net.now.node_names word.now ≡ false)
        (λ node. IsNameAt net.now.node_names word.now node) }
{
    // Proof: names of nodes differ.
    net.recall();
    match std::str::from_utf8(word) {
        Ok(name) => net.node_named(name),
        Err(_) => None,
    }
}

/// Returns the number that a word `a` or `a/b` writes, if it writes one.
pub fn number_of(word: &[u8]) -> Option<Q>
    ensures { result ≡ result_ok (numerals.number_of greatest word.now) }
{
    Q::read(word).ok()
}
