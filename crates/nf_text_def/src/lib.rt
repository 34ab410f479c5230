//! This crate defines the lines and words of a text file, as functions of its bytes. `specs/` holds the definitions, and
//! `nf_net_laws` their theorems.
//!
//! A line ends at LF. A CR right before that LF belongs to the ending. The last line may have no ending. `#` begins a comment, which
//! extends to the end of the line. Spaces and tabs separate words. The format is this project's own.
#![tactic(auto)]
