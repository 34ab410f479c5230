// One line of a network file by itself.
ghost use Rattle.std.specs.Prelude.{◌≡◌, ◌<◌, true, false, length, drop, map, MatchResult};
ghost use Rattle.nf_net_def.specs.declared.NetRule.TheVariants.{N7};
ghost use Rattle.nf_net_def.specs.Names.{is_name};
ghost use Rattle.nf_net_def.specs.Numbers.{number_in, capacity_in};
ghost use Rattle.nf_net_def.specs.NetLines as lines;
ghost use Rattle.nf_net_def.specs.NetLines.{node_line, link_line, inflow_line, end_line, entry_of};
ghost use Rattle.nf_text.specs.Within.{word_at};
ghost use Rattle.nf_net_file.specs.Reading.{seen_entry, said_by};

use crate::link::{NamedLink, Piece};
use crate::name::Name;
use nf_frac::Q;
use nf_net_def::NetRule;
use nf_text::{ReadLine, is_word};

/// What a line says.
#[derive(Drop)]
pub enum Entry {
    Source(Name),
    Sink(Name),
    Link(NamedLink),
    Inflow(Piece),
    End,
}

// Returns the name that a word is. Refuses with N7 if the word is no name.
fn read_name(word: &[u8]) -> Result<Name, NetRule>
    ensures { MatchResult result (λ name. (name ≡ word.now) × (is_name word.now ≡ true))
        (λ rule. (rule ≡ N7) × (is_name word.now ≡ false)) }
{
    match Name::read(word) {
        Some(name) => Ok(name),
        None => Err(NetRule::N7),
    }
}

// Returns the number that a word writes, if it is one. From version 2 on, decimals are numbers too.
fn read_number(version: u32, word: &[u8]) -> Option<Q>
    ensures { result ≡ number_in version word.now }
{
    if version == 1 {
        Q::read(word).ok()
    } else {
        Q::read_decimal(word).ok()
    }
}

// Returns the capacity that a word writes, if it is one. From version 2 on, `inf` writes that of an unbounded link.
fn read_capacity(version: u32, word: &[u8]) -> Option<Option<Q>>
    ensures { result ≡ capacity_in version word.now }
{
    if version != 1 && is_word(word, b"inf") {
        return Some(None);
    }
    match read_number(version, word) {
        Some(capacity) => Some(Some(capacity)),
        None => None,
    }
}

// Reads `source NODE` or `sink NODE`.
#[tactic(auto, using(crate::proofs::LineWords::node_count_wrong, crate::proofs::LineWords::node_is, crate::proofs::LineWords::node_bad))]
fn read_node(line: &ReadLine) -> Result<Name, NetRule>
    requires { 0 < length line.now.words }
    ensures source { node_line (λ name. lines.Source name) (drop 1 line.now.words)
        ≡ said_by (λ name. lines.Source name) result }
    ensures sink { node_line (λ name. lines.Sink name) (drop 1 line.now.words)
        ≡ said_by (λ name. lines.Sink name) result }
{
    if line.len() != 2 {
        return Err(NetRule::N6);
    }
    read_name(line.at(1))
}

// Reads `link NAME TAIL HEAD TRANSIT CAPACITY`.
#[tactic(auto, using(crate::proofs::LineWords::link_count_wrong, crate::proofs::LineWords::link_is, crate::proofs::LineWords::link_bad_name, crate::proofs::LineWords::link_bad_tail, crate::proofs::LineWords::link_bad_head))]
fn read_link(version: u32, line: &ReadLine) -> Result<NamedLink, NetRule>
    requires { 0 < length line.now.words }
    ensures { link_line version (drop 1 line.now.words) ≡ said_by (λ l. lines.LinkLine l) result }
{
    if line.len() != 6 {
        return Err(NetRule::N6);
    }
    let name = read_name(line.at(1))?;
    let tail = read_name(line.at(2))?;
    let head = read_name(line.at(3))?;
    let Some(transit) = read_number(version, line.at(4)) else {
        return Err(NetRule::N8);
    };
    let Some(capacity) = read_capacity(version, line.at(5)) else {
        return Err(NetRule::N8);
    };
    Ok(NamedLink {
        name,
        tail,
        head,
        transit,
        capacity,
    })
}

// Reads `inflow START RATE`.
#[tactic(auto, using(crate::proofs::LineWords::inflow_count_wrong, crate::proofs::LineWords::inflow_count_right))]
fn read_inflow(version: u32, line: &ReadLine) -> Result<Piece, NetRule>
    requires { 0 < length line.now.words }
    ensures { inflow_line version (drop 1 line.now.words)
        ≡ said_by (λ piece. lines.InflowLine piece) result }
{
    if line.len() != 3 {
        return Err(NetRule::N6);
    }
    let Some(start) = read_number(version, line.at(1)) else {
        return Err(NetRule::N8);
    };
    let Some(rate) = read_number(version, line.at(2)) else {
        return Err(NetRule::N8);
    };
    Ok(Piece { start, rate })
}

// Reads `end`.
#[tactic(auto, using(crate::proofs::LineWords::end_count_wrong, crate::proofs::LineWords::end_count_right))]
fn read_end(line: &ReadLine) -> Result<(), NetRule>
    requires { 0 < length line.now.words }
    ensures { end_line (drop 1 line.now.words) ≡ said_by (λ _. lines.End) result }
{
    if line.len() != 1 {
        return Err(NetRule::N6);
    }
    Ok(())
}

/// Returns what a line says in a file of this version. Refuses with the first of N5 to N8 that the line breaks.
pub fn read_entry(version: u32, line: &ReadLine) -> Result<Entry, NetRule>
    ensures { entry_of version line.now.words ≡ said_by seen_entry result }
{
    if line.len() == 0 {
        return Err(NetRule::N5);
    }
    let key = line.at(0);
    if is_word(key, b"source") {
        return Ok(Entry::Source(read_node(line)?));
    }
    if is_word(key, b"sink") {
        return Ok(Entry::Sink(read_node(line)?));
    }
    if is_word(key, b"link") {
        return Ok(Entry::Link(read_link(version, line)?));
    }
    if is_word(key, b"inflow") {
        return Ok(Entry::Inflow(read_inflow(version, line)?));
    }
    if is_word(key, b"end") {
        read_end(line)?;
        return Ok(Entry::End);
    }
    Err(NetRule::N5)
}
