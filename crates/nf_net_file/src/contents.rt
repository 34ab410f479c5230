// The lines of a network file, one by one.
ghost use Rattle.std.specs.Prelude.{◌≡◌, Ok, Err, MatchResult};
ghost use Rattle.nf_net_def.specs.NetLines.{version_of, add_lines as add_all, draft_from};
ghost use Rattle.nf_net_file.specs.Drafts.{seen_draft};
ghost use Rattle.nf_net_file.specs.Contents.{IfBroken};

use crate::draft::Draft;
use crate::fault::NetFault;
use nf_net_def::NetRule;
use nf_text::{ReadLine, is_word};
use std::alloc::Global;

// Returns the version that the words of the first line say: `nfot 1` or `nfot 2`.
#[tactic(auto, using(crate::proofs::HeadLine::head_count_wrong, crate::proofs::HeadLine::head_is))]
fn read_version(line: &ReadLine) -> Option<u32>
    ensures { result ≡ version_of line.now.words }
{
    if line.len() != 2 {
        return None;
    }
    if !is_word(line.at(0), b"nfot") {
        return None;
    }
    if is_word(line.at(1), b"1") {
        return Some(1);
    }
    if is_word(line.at(1), b"2") {
        return Some(2);
    }
    None
}

// Adds the lines to the parser state, up to the first that breaks a rule.
fn add_lines(draft: &mut Draft, lines: &[ReadLine]) -> Result<(), NetFault>
    ensures { MatchResult result
        (λ _. add_all (seen_draft draft.old) lines.now ≡ Ok (seen_draft draft.new))
        (λ fault.
        IfBroken fault (λ broken. add_all (seen_draft draft.old) lines.now ≡ Err broken)) }
{
    for line in lines {
        if let Err(fault) = draft.add_line(line) {
            return Err(fault.in_line(line.number()));
        }
    }
    Ok(())
}

/// Returns the parser state after the lines that have words. Refuses with the first of N3 to N16 that is broken, or if an allocation
/// fails.
#[tactic(auto, using(crate::proofs::ContentLines::no_first, crate::proofs::ContentLines::no_version))]
pub fn read_draft(alloc: Global, lines: &[ReadLine]) -> Result<Draft, NetFault>
    ensures { MatchResult result (λ draft. draft_from lines.now ≡ Ok (seen_draft draft))
        (λ fault. IfBroken fault (λ broken. draft_from lines.now ≡ Err broken)) }
{
    let [first, rest @ ..] = lines else {
        return Err(NetFault::Broken {
            rule: NetRule::N3,
            line: 1,
        });
    };
    let Some(version) = read_version(first) else {
        return Err(NetFault::Broken {
            rule: NetRule::N3,
            line: first.number(),
        });
    };
    let mut draft = Draft::new(alloc, version);
    add_lines(&mut draft, rest)?;
    Ok(draft)
}
