// Parsing a network file.
ghost use Rattle.std.specs.Prelude.{◌≡◌, ◌≤◌, length, None, Ok, Err, IfOk, IfErr, OnOk, MatchResult};
ghost use Rattle.nf_text_def.specs.Words.{read_lines, content_lines};
ghost use Rattle.nf_text_def.specs.Faults.{first_fault, longest_text};
ghost use Rattle.nf_net_def.specs.NetFile.{ReadsAs, Reads};
ghost use Rattle.nf_net_file.specs.Drafts.{seen_draft};
ghost use Rattle.nf_net_file.specs.Contents.{IfBroken, IsRead};
ghost use Rattle.nf_net_file.specs.Closing.{IsWhole};

use crate::building::{network_of, parts_of};
use crate::network::Network;
use nf_net_def::NetRule;
use nf_net_file::{Draft, NetFault, flags_of, hops_of, names_rule, read_draft, walk_rule};
use nf_text::{ReadLine, contents};
use std::alloc::Global;

// Returns the lines of the text that have words, or the fault of the first line that has one.
fn lines_of<'a>(alloc: Global, text: &'a [u8]) -> Result<Vec<ReadLine<'a>>, NetFault>
    requires { length text.now ≤ longest_text }
    ensures lines { IfOk result (λ lines. lines.items ≡ content_lines (read_lines text.now)) }
    ensures fine { OnOk result (first_fault text.now ≡ None) }
    ensures fault { IfErr result (λ fault. IfBroken fault (λ broken. Reads text.now (Err broken))) }
{
    match contents(alloc, text) {
        Ok(lines) => Ok(lines),
        Err(fault) => Err(fault.in_file(NetRule::N1, NetRule::N2)),
    }
}

// Returns a flag for each node, which states whether the node is reached. Fails with the first rule of the whole file that is broken.
fn closing_flags(alloc: Global, draft: &Draft) -> Result<Vec<bool>, NetFault>
    requires { IsRead (seen_draft draft.now) }
    ensures { MatchResult result (λ flags. IsWhole (seen_draft draft.now) flags.items)
        (λ fault. IfBroken fault (λ broken. ReadsAs (seen_draft draft.now) (Err broken))) }
{
    if let Some(rule) = names_rule(draft) {
        return Err(NetFault::Broken { rule, line: 0 });
    }
    let hops = hops_of(alloc, &draft.nodes, &draft.links)?;
    let flags = flags_of(alloc, draft, &hops)?;
    match walk_rule(alloc, draft, &hops, &flags)? {
        Some(rule) => Err(NetFault::Broken { rule, line: 0 }),
        None => Ok(flags),
    }
}

// Returns the network that the lines stand for, or the first rule of the whole file that they break.
fn close(alloc: Global, draft: Draft) -> Result<Network, NetFault>
    requires { IsRead (seen_draft draft) }
    ensures { MatchResult result (λ net. ReadsAs (seen_draft draft) (Ok net))
        (λ fault. IfBroken fault (λ broken. ReadsAs (seen_draft draft) (Err broken))) }
{
    let flags = closing_flags(alloc, &draft)?;
    let parts = parts_of(alloc, &draft, &flags)?;
    Ok(network_of(draft, parts))
}

/// Parses a network file of at most 67,108,864 bytes. Returns its network, or the first rule that the text breaks, with the line. The
/// rules of all bytes and lines are tested first, then those of each line, then those of the whole file, with line 0. Also fails if an
/// allocation fails.
pub fn parse(alloc: Global, text: &[u8]) -> Result<Network, NetFault>
    requires { length text.now ≤ longest_text }
    ensures { MatchResult result (λ net. Reads text.now (Ok net))
        (λ fault. IfBroken fault (λ broken. Reads text.now (Err broken))) }
{
    let lines = lines_of(alloc, text)?;
    let draft = read_draft(alloc, &lines)?;
    close(alloc, draft)
}
