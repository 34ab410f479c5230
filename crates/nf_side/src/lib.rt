//! Reads files that are given beside a network. A trait holds what one kind of file needs: a parser state, its rules and its keyword.
//! The crate also finds the links, nodes, numbers and names that words stand for, and the rule that a piece breaks behind others. The
//! formats of the files are this project's own.
#![tactic(auto)]

mod drafting;
mod head;
mod pieces;
mod words;

pub use drafting::{SideDraft, read_draft};
pub use head::FileHead;
pub use nf_net_file::is_name;
pub use nf_text::{FileFault, LineFault, ReadLine, is_word};
pub use pieces::{MOST_LINES, PieceRules, piece_rule};
pub use words::{link_near, link_of, node_of, number_of};
