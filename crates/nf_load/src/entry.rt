// One line of a loads file by itself.
ghost use Rattle.std.specs.Prelude.{◌≡◌, ◌<◌, length, drop, IfOk};
ghost use Rattle.nf_report_def.specs.LoadsFile as file;
ghost use Rattle.nf_report_def.specs.LoadsFile.{rate_line, end_line, load_entry};
ghost use Rattle.nf_side.specs.Said.{said_by};
ghost use Rattle.nf_load.specs.Entries.{HasLink, seen_entry};

use nf_net::{LinkId, Network, Piece};
use nf_report_def::LoadRule;
use nf_side::{ReadLine, is_word, link_near, number_of};

/// A line says that a link has a piece, or that the file ends.
#[derive(Clone, Copy)]
pub enum Entry {
    Rate(LinkId, Piece),
    End,
}

// `rate LINK START RATE`
#[tactic(auto, using(nf_side::proofs::LineWords::rate_count_wrong, nf_side::proofs::LineWords::rate_unknown, nf_side::proofs::LineWords::rate_known))]
fn read_rate(net: &Network, line: &ReadLine, near: LinkId) -> Result<Entry, LoadRule>
    requires { 0 < length line.now.words }
    ensures says { rate_line net.now.link_names (drop 1 line.now.words)
        ≡ said_by seen_entry result }
    ensures link { IfOk result (λ entry. HasLink (length net.now.link_names) (seen_entry entry)) }
{
    if line.len() != 4 {
        return Err(LoadRule::L6);
    }
    let Some(link) = link_near(net, line.at(1), near) else {
        return Err(LoadRule::L7);
    };
    let Some(start) = number_of(line.at(2)) else {
        return Err(LoadRule::L8);
    };
    let Some(rate) = number_of(line.at(3)) else {
        return Err(LoadRule::L8);
    };
    Ok(Entry::Rate(link, Piece { start, rate }))
}

// `end`
#[tactic(auto, using(nf_side::proofs::LineWords::end_count_wrong, nf_side::proofs::LineWords::end_count_right))]
fn read_end(line: &ReadLine) -> Result<(), LoadRule>
    requires { 0 < length line.now.words }
    ensures { end_line (drop 1 line.now.words) ≡ said_by (λ _. file.End) result }
{
    if line.len() != 1 {
        return Err(LoadRule::L6);
    }
    Ok(())
}

/// Returns what the words of a line say, or the first of L5 to L8 that they break. The name of the link `near` is compared first.
pub fn read_entry(net: &Network, line: &ReadLine, near: LinkId) -> Result<Entry, LoadRule>
    ensures says { load_entry net.now.link_names line.now.words ≡ said_by seen_entry result }
    ensures link { IfOk result (λ entry. HasLink (length net.now.link_names) (seen_entry entry)) }
{
    if line.len() == 0 {
        return Err(LoadRule::L5);
    }
    let key = line.at(0);
    if is_word(key, b"rate") {
        return read_rate(net, line, near);
    }
    if is_word(key, b"end") {
        read_end(line)?;
        return Ok(Entry::End);
    }
    Err(LoadRule::L5)
}
