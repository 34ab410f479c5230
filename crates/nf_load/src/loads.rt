// The pieces of inflow of each link.
ghost use Rattle.std.specs.Prelude.{◌≡◌, ◌<◌, [], ◌∷◌, ◌++◌, length, OnOk};
ghost use Rattle.nf_model.specs.Network.{ArePieces};
ghost use Rattle.nf_report_def.specs.LoadsFile.{pieces_at};
ghost use Rattle.nf_load.specs.Kept.{AreLoads};

use nf_net::{LinkId, Piece};
use std::alloc::{AllocError, Global};
use std::marker::Model;

/// The pieces of one link, in the order of their lines.
#[derive(Drop)]
pub struct Pieces {
    list: Vec<Piece>,
}

impl Model for Pieces {
    ghost use Rattle.std.specs.Prelude.{List};
    ghost use Rattle.std.specs.Coded.{coded_list};
    ghost use Rattle.nf_model.specs.Network.{Piece as SeenPiece};
    ghost use Rattle.nf_model.specs.Codes.{coded_piece};

    ghost Value = { List SeenPiece };

    ghost coded = { coded_list coded_piece };

    ghost view = { λ p. p.list.items };
}

impl Pieces {
    pub fn new(alloc: Global) -> Pieces
        ensures { result ≡ [] }
    {
        Pieces {
            list: Vec::new(alloc),
        }
    }

    pub fn as_slice(&self) -> &[Piece]
        ensures { result.now ≡ self.now }
    {
        &self.list
    }

    pub fn push(&mut self, piece: Piece) -> Result<(), AllocError>
        ensures { OnOk result (self.new ≡ self.old ++ piece ∷ []) }
    {
        self.list.push(piece)?;
        Ok(())
    }
}

/// The given inflow of each link of a network: pieces, from each start on at a rate, an amount per unit of time, until the next
/// start. Starts are at least 0 and rise, and rates are at least 0. A link without pieces has no inflow.
#[derive(Drop)]
pub struct Loads {
    links: Vec<Pieces>,
}

impl Model for Loads {
    ghost use Rattle.std.specs.Prelude.{List};
    ghost use Rattle.std.specs.Coded.{coded_list};
    ghost use Rattle.nf_model.specs.Network.{Piece as SeenPiece};
    ghost use Rattle.nf_model.specs.Codes.{coded_piece};
    ghost use Rattle.nf_load.specs.Kept.{AreLoads};

    ghost Value = { List (List SeenPiece) };

    ghost coded = { coded_list (coded_list coded_piece) };

    ghost view = { λ l. l.links.items };

    ghost invariant = { λ l. AreLoads l.links.items };
}

impl Loads {
    // The loads of these pieces, link by link.
    pub(crate) fn kept(links: Vec<Pieces>) -> Loads
        requires { AreLoads links.items }
        ensures { result ≡ links.items }
    {
        Loads { links }
    }

    /// The pieces of a link. Takes no memory.
    pub fn pieces(&self, link: LinkId) -> &[Piece]
        requires { link < length self.now }
        ensures value { result.now ≡ pieces_at self.now link }
        ensures pieces { ArePieces result.now }
    {
        self.links[link.index()].as_slice()
    }
}
