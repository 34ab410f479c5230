// Single lines of a flows file.
ghost use Rattle.std.specs.Prelude.{◌≡◌, ℕ, ◌<◌, length, drop, IfOk};
ghost use Rattle.std.specs.Result.{result_ok};
ghost use Rattle.nf_rational.specs.Rational.{ℚ};
ghost use Rattle.nf_frac_words.specs.Numbers.{number_of as number_by};
ghost use Rattle.nf_net_def.specs.Numbers.{greatest};
ghost use Rattle.nf_complete_def.specs.FlowsFile as file;
ghost use Rattle.nf_complete_def.specs.FlowsFile.{FlowsEntry, number_entry, named_line, end_line, flows_entry};
ghost use Rattle.nf_side.specs.Said.{said_by};
ghost use Rattle.nf_complete_read.specs.Entries.{seen_entry, IsOf};

use nf_complete_def::FlowsRule;
use nf_frac::Q;
use nf_net::{LinkId, Network, NodeId};
use nf_side::{ReadLine, is_word, link_of, node_of, number_of};

/// The entry of a line. `Flow` is the flow of a link, `Slope` is the slope of a node, and `End` is the `end` line.
#[derive(Clone, Copy)]
pub enum Entry {
    Flow(LinkId, Q),
    Slope(NodeId, Q),
    End,
}

// Reads a number. Refuses with S8 if the word is not a number, and with S9 if the number is negative.
fn read_number(word: &[u8]) -> Result<Q, FlowsRule>
    ensures { (make : ℚ → FlowsEntry)
        → number_entry make (result_ok (number_by greatest word.now)) ≡ said_by make result }
{
    let Some(number) = number_of(word) else {
        return Err(FlowsRule::S8);
    };
    if number.is_below(Q::zero()) {
        return Err(FlowsRule::S9);
    }
    Ok(number)
}

// Reads `flow LINK X`.
#[tactic(auto, using(crate::proofs::FlowWords::count_wrong, crate::proofs::FlowWords::not_named, crate::proofs::FlowWords::named))]
fn read_flow(net: &Network, line: &ReadLine) -> Result<Entry, FlowsRule>
    requires { 0 < length line.now.words }
    ensures says { named_line (λ link flow. file.FlowOf link flow) net.now.link_names
        (drop 1 line.now.words) ≡ said_by seen_entry result }
    ensures link { IfOk result (λ entry. IsOf net.now (seen_entry entry)) }
{
    if line.len() != 3 {
        return Err(FlowsRule::S6);
    }
    let Some(link) = link_of(net, line.at(1)) else {
        return Err(FlowsRule::S7);
    };
    let flow = read_number(line.at(2))?;
    Ok(Entry::Flow(link, flow))
}

// Reads `slope NODE L`.
#[tactic(auto, using(crate::proofs::FlowWords::count_wrong, crate::proofs::FlowWords::not_named, crate::proofs::FlowWords::named))]
fn read_slope(net: &Network, line: &ReadLine) -> Result<Entry, FlowsRule>
    requires { 0 < length line.now.words }
    ensures says { named_line (λ node slope. file.SlopeOf node slope) net.now.node_names
        (drop 1 line.now.words)
        ≡ said_by seen_entry result }
    ensures node { IfOk result (λ entry. IsOf net.now (seen_entry entry)) }
{
    if line.len() != 3 {
        return Err(FlowsRule::S6);
    }
    let Some(node) = node_of(net, line.at(1)) else {
        return Err(FlowsRule::S7);
    };
    let slope = read_number(line.at(2))?;
    Ok(Entry::Slope(node, slope))
}

// Reads `end`.
#[tactic(auto, using(nf_side::proofs::LineWords::end_count_wrong, nf_side::proofs::LineWords::end_count_right))]
fn read_end(line: &ReadLine) -> Result<Entry, FlowsRule>
    requires { 0 < length line.now.words }
    ensures says { end_line (drop 1 line.now.words) ≡ said_by seen_entry result }
    ensures end { IfOk result (λ entry. seen_entry entry ≡ file.End) }
{
    if line.len() != 1 {
        return Err(FlowsRule::S6);
    }
    Ok(Entry::End)
}

/// Returns the entry of a line. Refuses with the first of S5 to S9 that the line breaks.
pub fn read_entry(net: &Network, line: &ReadLine) -> Result<Entry, FlowsRule>
    ensures says { flows_entry net.now line.now.words ≡ said_by seen_entry result }
    ensures within { IfOk result (λ entry. IsOf net.now (seen_entry entry)) }
{
    if line.len() == 0 {
        return Err(FlowsRule::S5);
    }
    let key = line.at(0);
    if is_word(key, b"flow") {
        return read_flow(net, line);
    }
    if is_word(key, b"slope") {
        return read_slope(net, line);
    }
    if is_word(key, b"end") {
        return read_end(line);
    }
    Err(FlowsRule::S5)
}
