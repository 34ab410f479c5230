// The ladder as a text and as a network.
ghost use Rattle.std.specs.Prelude.{◌≡◌, ◌++◌, ◌≤◌, map, flat_map, IfOk, OnOk};
ghost use Rattle.nf_text_def.specs.Words.{line_of_words};
ghost use Rattle.nf_net_def.specs.NetText.{inflow_words, canonical};
ghost use Rattle.nf_gen.specs.Ladder.{most_rungs, ladder};
ghost use Rattle.nf_gen.specs.Writing.{pieces_after};

use crate::draws::Draws;
use crate::lines::push_piece_line;
use crate::rails::push_links;
use nf_net::{NetFault, Network, parse};
use nf_text::push_bytes;
use std::alloc::{AllocError, Global};

// Appends the lines of the three pieces. The next two draws give the rates.
fn push_pieces(out: &mut Vec<u8>, draws: &mut Draws) -> Result<(), AllocError>
    ensures { OnOk result (out.new.items
        ≡ out.old.items ++ flat_map line_of_words (map inflow_words (pieces_after draws.old))) }
{
    let first = 1 + draws.draw(6);
    let second = 1 + draws.draw(6);
    push_piece_line(out, 0, first)?;
    push_piece_line(out, 10, second)?;
    push_piece_line(out, 20, 0)?;
    Ok(())
}

// Returns the canonical text of the ladder.
fn ladder_text(alloc: Global, number: u64, rungs: u64) -> Result<Vec<u8>, AllocError>
    requires some { 1 ≤ rungs }
    requires few { rungs ≤ most_rungs }
    ensures { IfOk result (λ text. text.items ≡ canonical (ladder number rungs)) }
{
    let mut draws = Draws::new(number);
    let mut out = Vec::new(alloc);
    push_bytes(&mut out, b"nfot 1\nsource s\nsink t\n")?;
    push_links(alloc, &mut out, &mut draws, rungs)?;
    push_pieces(&mut out, &mut draws)?;
    push_bytes(&mut out, b"end\n")?;
    Ok(out)
}

/// Returns the ladder of this number with 1 to 30 rungs. Fails if an allocation fails.
pub fn generated(alloc: Global, number: u64, rungs: u32) -> Result<Network, AllocError>
    requires some { 1 ≤ rungs }
    requires few { rungs ≤ most_rungs }
    ensures { IfOk result (λ net. net ≡ ladder number rungs) }
{
    let text = ladder_text(alloc, number, u64::from(rungs))?;
    match parse(alloc, &text) {
        Ok(net) => Ok(net),
        Err(NetFault::Memory) => Err(AllocError),
        Err(NetFault::Broken { .. }) => unreachable!(),
    }
}
