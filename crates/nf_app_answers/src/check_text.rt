// The line of a verdict on a report.
ghost use Rattle.std.specs.Prelude.{◌≡◌, [], ◌∷◌, codes};
ghost use Rattle.nf_frac_words.specs.Printed.{printed};
ghost use Rattle.nf_text_def.specs.Words.{line_of_words};
ghost use Rattle.nf_edge.specs.Writing.{state_of, Wrote};
ghost use Rattle.nf_report_def.specs.Texts.{check_rule_word, subject_word, answer_text};

use crate::words::{link_word, node_word};
use nf_check::{Answer, CheckRule, Subject};
use nf_edge::{Sink, SinkFault};
use nf_frac::{Q, TextBuf};
use nf_net::Network;
use nf_report::write_line;

fn check_rule_text(rule: CheckRule) -> &'static [u8]
    ensures { result.now ≡ check_rule_word rule }
{
    match rule {
        CheckRule::C1 => b"C1",
        CheckRule::C2 => b"C2",
        CheckRule::C3 => b"C3",
        CheckRule::C4 => b"C4",
        CheckRule::C5 => b"C5",
        CheckRule::C6 => b"C6",
        CheckRule::C7 => b"C7",
        CheckRule::C8 => b"C8",
    }
}

// Returns the name of the node or link that breaks a rule.
fn subject_text(net: &Network, subject: Subject) -> &[u8]
    ensures { result.now ≡ subject_word net.now subject }
{
    match subject {
        Subject::Node(node) => node_word(net, node),
        Subject::Link(link) => link_word(net, link),
    }
}

// Returns a number as text.
fn number_text(number: Q) -> TextBuf
    ensures { result ≡ printed number }
{
    let mut word = TextBuf::new();
    number.write(&mut word);
    word
}

// Writes the line of a broken rule, from its words.
fn write_no<O: Sink>(
    out: &mut O,
    rule: &[u8],
    subject: &[u8],
    time: &[u8],
    left: &[u8],
    right: &[u8],
) -> Result<(), SinkFault>
    ensures { Wrote (state_of O.Sink out.old) (state_of O.Sink out.new) (line_of_words
        (codes "no" ∷ rule.now ∷ subject.now ∷ time.now ∷ left.now ∷ right.now ∷ [])) result }
{
    write_line(out, b"no", &[rule, subject, time, left, right])
}

/// Writes the line of a verdict. A `no` holds the first broken rule, the node or link that breaks it, the time, and two different values.
/// Allocates nothing.
///
/// The first fault ends the writing; the sink then took a proper prefix of the line.
pub fn write_verdict<O: Sink>(out: &mut O, net: &Network, verdict: &Answer) -> Result<(), SinkFault>
    ensures { Wrote (state_of O.Sink out.old) (state_of O.Sink out.new)
        (answer_text net.now verdict.now) result }
{
    match verdict {
        Answer::Yes => write_line(out, b"yes", &[]),
        Answer::No {
            rule,
            subject,
            time,
            left,
            right,
        } => {
            let time = number_text(*time);
            let left = number_text(*left);
            let right = number_text(*right);
            write_no(
                out,
                check_rule_text(*rule),
                subject_text(net, *subject),
                time.text(),
                left.text(),
                right.text(),
            )
        }
    }
}
