// The rules of bytes and of the first line, for one kind of side file.
ghost use Rattle.std.specs.Prelude.{◌≡◌};
ghost use Rattle.nf_side_def.specs.Lines.{is_head as is_head_by};

use nf_text::{ReadLine, is_word};

/// The rules of one kind of side file that need no line of it to be read, and the keyword of its first line.
#[derive(Drop)]
pub struct FileHead<R> {
    /// A line has a byte that the rule forbids.
    pub not_ascii: R,
    /// A line is too long.
    pub long_line: R,
    /// The first line with words is not the keyword and the version.
    pub no_head: R,
    pub keyword: &'static [u8],
}

// Returns whether the words of a line are a keyword and the version 1.
#[tactic(auto, using(crate::proofs::HeadWords::head_count_wrong, crate::proofs::HeadWords::head_is))]
pub(crate) fn is_head(line: &ReadLine, keyword: &[u8]) -> bool
    ensures { result ≡ is_head_by keyword.now line.now.words }
{
    line.len() == 2 && is_word(line.at(0), keyword) && is_word(line.at(1), b"1")
}
