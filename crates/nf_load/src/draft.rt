// The lines of a loads file that are read so far.
ghost use Rattle.std.specs.Prelude.{◌≡◌, ◌++◌, [], ◌∷◌, length, Ok, Err, OnOk, MatchResult};
ghost use Rattle.nf_side.specs.Drafted.{open_frame};
ghost use Rattle.nf_side.specs.Faults.{IfBroken};
ghost use Rattle.nf_report_def.specs.LoadsFile.{load_rule_of, load_after, if_ended, loads_frame};
ghost use Rattle.nf_load.specs.Entries.{HasLink, seen_entry};

use crate::entry::{Entry, read_entry};
use crate::loads::Pieces;
use crate::reading::LoadsFault;
use nf_net::{LinkId, Network};
use nf_report_def::LoadRule;
use nf_side::{FileHead, LineFault, MOST_LINES, PieceRules, ReadLine, SideDraft, piece_rule};
use std::alloc::{AllocError, Global};
use std::marker::Model;

// The rules of the pieces of a link.
const PIECE_RULES: PieceRules<LoadRule> = PieceRules {
    negative: LoadRule::L9,
    not_after: LoadRule::L10,
    too_many: LoadRule::L11,
    most: MOST_LINES,
};

/// The lines that are read so far: of each link its pieces, and whether there was an `end` line. `near` is the link of the last `rate`
/// line.
#[derive(Drop)]
pub struct Draft {
    pieces: Vec<Pieces>,
    ended: bool,
    near: LinkId,
}

impl Model for Draft {
    ghost use Rattle.nf_report_def.specs.LoadsFile.{LoadsDraft};

    ghost Value = { LoadsDraft };

    ghost view = { λ d. record { pieces = d.pieces.items; ended = d.ended } };
}

impl Draft {
    // The first of L9 to L11 that the line breaks because of the lines before it.
    fn rule(&self, entry: &Entry) -> Option<LoadRule>
        requires { HasLink (length self.now.pieces) (seen_entry entry.now) }
        ensures { result ≡ load_rule_of self.now (seen_entry entry.now) }
    {
        match entry {
            Entry::Rate(link, piece) => piece_rule(
                self.pieces[link.index()].as_slice(),
                piece,
                PIECE_RULES,
            ),
            Entry::End => None,
        }
    }

    fn add(&mut self, entry: Entry) -> Result<(), AllocError>
        requires { HasLink (length self.old.pieces) (seen_entry entry) }
        ensures { OnOk result (self.new ≡ load_after self.old (seen_entry entry)) }
    {
        match entry {
            Entry::Rate(link, piece) => {
                self.near = link;
                self.pieces[link.index()].push(piece)?;
            }
            Entry::End => self.ended = true,
        }
        Ok(())
    }

    /// The pieces of each link, or L12 where there was no `end` line.
    pub fn close(self) -> Result<Vec<Pieces>, LoadsFault>
        ensures { MatchResult result (λ links. if_ended self ≡ Ok links.items)
            (λ fault. IfBroken fault (λ broken. if_ended self ≡ Err broken)) }
    {
        if !self.ended {
            return Err(LoadsFault::Broken {
                rule: LoadRule::L12,
                line: 0,
            });
        }
        Ok(self.pieces)
    }
}

impl SideDraft for Draft {
    type Rule = LoadRule;

    ghost frame = { λ n. open_frame (loads_frame n) };

    ghost fits = { λ n draft. length draft.pieces ≡ length n.link_names };

    fn head() -> FileHead<LoadRule> {
        FileHead {
            not_ascii: LoadRule::L1,
            long_line: LoadRule::L2,
            no_head: LoadRule::L3,
            keyword: b"loads",
        }
    }

    fn new(alloc: Global, net: &Network) -> Result<Draft, AllocError> {
        // Proof: each link has a name.
        net.recall();
        let mut pieces = Vec::new(alloc);
        for _ in 0..net.link_count() {
            pieces.push(Pieces::new(alloc))?;
        }
        Ok(Draft {
            pieces,
            ended: false,
            near: LinkId(0),
        })
    }

    // Answers the first of L4 to L11 that the line breaks.
    fn add_line(&mut self, net: &Network, line: &ReadLine) -> Result<(), LineFault<LoadRule>> {
        if self.ended {
            return Err(LineFault::Broken(LoadRule::L4));
        }
        let entry = match read_entry(net, line, self.near) {
            Ok(entry) => entry,
            Err(rule) => return Err(LineFault::Broken(rule)),
        };
        if let Some(rule) = self.rule(&entry) {
            return Err(LineFault::Broken(rule));
        }
        self.add(entry)?;
        Ok(())
    }
}
