// The reading of a side file, line by line, into a parser state.
ghost use Rattle.std.specs.Prelude.{◌≡◌, ◌≤◌, length, Ok, Err, IfOk, OnOk, MatchResult};
ghost use Rattle.nf_text_def.specs.Faults.{longest_text};
ghost use Rattle.nf_net_def.specs.Named.{Named};
ghost use Rattle.nf_side_def.specs.Frame.{Frame, add_lines as add_lines_by, draft_of};
ghost use Rattle.nf_text.specs.Faults.{IfRule};
ghost use Rattle.nf_side.specs.Faults.{IfBroken};
ghost use Rattle.nf_side.specs.Heads.{IsHeadOf};
ghost use Rattle.nf_side.specs.Drafted.{drafted_in};

use crate::head::{FileHead, is_head};
use nf_net::Network;
use nf_text::{FileFault, LineFault, ReadLine, contents};
use std::alloc::{AllocError, Global};

/// The parser state of one kind of side file.
pub trait SideDraft: Drop {
    /// The rules of the file.
    type Rule: Copy;

    // The file beside a network, with the parser state as its result.
    ghost frame: { Named → Frame Self.Rule Self Self };

    // Whether a parser state belongs to a network.
    ghost fits: { Named → Self → Type 0 } = { λ _ _. Unit {0} };

    /// Returns the rules of bytes and of the first line.
    fn head() -> FileHead<Self::Rule>
        ensures { (n : Named) → IsHeadOf (frame n) result };

    /// Returns the empty parser state.
    fn new(alloc: Global, net: &Network) -> Result<Self, AllocError>
        ensures empty { IfOk result (λ draft. draft ≡ (frame net.now).empty) }
        ensures fits { IfOk result (λ draft. fits net.now draft) };

    /// Adds the entry of a line. Refuses with the first rule that the line breaks, or if an allocation fails.
    fn add_line(&mut self, net: &Network, line: &ReadLine) -> Result<(), LineFault<Self::Rule>>
        requires { fits net.now self.old }
        ensures adds { MatchResult result
            (λ _. (frame net.now).add self.old line.now.words ≡ Ok self.new)
            (λ fault.
            IfRule fault (λ rule. (frame net.now).add self.old line.now.words ≡ Err rule)) }
        ensures fits { OnOk result (fits net.now self.new) };
}

// Adds the lines to a parser state. Refuses with the first line that breaks a rule.
fn add_lines<D: SideDraft>(
    net: &Network,
    mut draft: D,
    lines: &[ReadLine],
) -> Result<D, FileFault<D::Rule>>
    requires { D.fits net.now draft }
    ensures adds { MatchResult result
        (λ next. add_lines_by (D.frame net.now).add draft lines.now ≡ Ok next)
        (λ fault. IfBroken fault
        (λ broken. add_lines_by (D.frame net.now).add draft lines.now ≡ Err broken)) }
    ensures fits { IfOk result (λ next. D.fits net.now next) }
{
    for line in lines {
        if let Err(fault) = draft.add_line(net, line) {
            return Err(fault.in_line(line.number()));
        }
    }
    Ok(draft)
}

// Reads the lines that have words.
#[tactic(auto, using(crate::proofs::Frame::no_first, crate::proofs::Frame::other_first))]
fn read_lines<D: SideDraft>(
    alloc: Global,
    net: &Network,
    lines: &[ReadLine],
) -> Result<D, FileFault<D::Rule>>
    ensures reads { MatchResult result (λ draft. draft_of (D.frame net.now) lines.now ≡ Ok draft)
        (λ fault. IfBroken fault (λ broken. draft_of (D.frame net.now) lines.now ≡ Err broken)) }
    ensures fits { IfOk result (λ draft. D.fits net.now draft) }
{
    let head = D::head();
    let [first, rest @ ..] = lines else {
        return Err(FileFault::Broken {
            rule: head.no_head,
            line: 1,
        });
    };
    if !is_head(first, head.keyword) {
        return Err(FileFault::Broken {
            rule: head.no_head,
            line: first.number(),
        });
    }
    add_lines(net, D::new(alloc, net)?, rest)
}

/// Reads a text of at most 67,108,864 bytes into a parser state. Refuses with the first broken rule and its line. Rules of all bytes and
/// lines come first, then rules of single lines in order.
pub fn read_draft<D: SideDraft>(
    alloc: Global,
    net: &Network,
    text: &[u8],
) -> Result<D, FileFault<D::Rule>>
    requires { length text.now ≤ longest_text }
    ensures reads { MatchResult result (λ draft. drafted_in (D.frame net.now) text.now ≡ Ok draft)
        (λ fault. IfBroken fault (λ broken. drafted_in (D.frame net.now) text.now ≡ Err broken)) }
    ensures fits { IfOk result (λ draft. D.fits net.now draft) }
{
    let lines = match contents(alloc, text) {
        Ok(lines) => lines,
        Err(fault) => {
            let head = D::head();
            return Err(fault.in_file(head.not_ascii, head.long_line));
        }
    };
    read_lines(alloc, net, &lines)
}
