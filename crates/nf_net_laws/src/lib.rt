//! This crate states theorems about lines and the network file; it contains no code. The lines of a text with their endings are the text,
//! and plain lines are read back. Each text has exactly one reading. An accepted file stands for a well-formed network. Reading a
//! canonical text returns its network.
#![tactic(auto)]

ghost use Rattle.nf_net_laws.specs.Laws.{ReadsEach, ReadsOnce, AcceptedIsNamed, CanonicalReadsBack};
ghost use Rattle.nf_net_laws.specs.LineLaws.{TextIsItsLines, PlainLinesReadBack};

/// Each text has a reading: it stands for a network, or it breaks a first rule.
pub fn reads_each()
    ensures { ReadsEach }
{}

/// A text has at most one reading.
pub fn reads_once()
    ensures { ReadsOnce }
{}

/// The network of each accepted file is a network of the model, its names and numbers satisfy the limits, and its idle nodes and links
/// are unreached.
pub fn accepted_is_named()
    ensures { AcceptedIsNamed }
{}

/// Reading the canonical text of the network of an accepted file returns that network, with the same names.
pub fn canonical_reads_back()
    ensures { CanonicalReadsBack }
{}

/// The lines of a text, each with its ending, join to the text. They are numbered from 1.
pub fn text_is_its_lines()
    ensures { TextIsItsLines }
{}

/// Reading the lines of some words, in order, returns these words, and each line is plain.
pub fn plain_lines_read_back()
    ensures { PlainLinesReadBack }
{}
