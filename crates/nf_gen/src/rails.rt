// The links of a ladder, in order, with their draws.
ghost use Rattle.std.specs.Prelude.{◌≡◌, ◌+◌, ◌≤◌, [], ◌∷◌, IfOk, OnOk};
ghost use Rattle.nf_frac_words.specs.Digits.{digits_of};
ghost use Rattle.nf_gen.specs.Ladder.{most_rungs, link_from, rung_at, links_in, links_along, links_down, links_out, ladder_ends};
ghost use Rattle.nf_gen.specs.Writing.{WritesLinks};

use crate::draws::Draws;
use crate::lines::push_link_line;
use nf_frac_words::{TextBuf, write_count};
use std::alloc::{AllocError, Global};

// Returns the name that consists of a letter and a number.
fn numbered(alloc: Global, letter: u8, number: u64) -> Result<Vec<u8>, AllocError>
    ensures { IfOk result (λ name. name.items ≡ letter ∷ digits_of number) }
{
    let mut digits = TextBuf::new();
    write_count(number, &mut digits);
    let mut name = Vec::new(alloc);
    name.push(letter)?;
    name.extend_from_slice(digits.text())?;
    Ok(name)
}

// Appends the line of a link. The next two draws give its transit time and its capacity.
fn push_link(
    out: &mut Vec<u8>,
    draws: &mut Draws,
    name: &[u8],
    tail: &[u8],
    head: &[u8],
) -> Result<(), AllocError>
    ensures { OnOk result (WritesLinks (link_from name.now tail.now head.now ∷ []) out.old.items
        out.new.items draws.old draws.new) }
{
    let transit = 1 + draws.draw(5);
    let capacity = 1 + draws.draw(4);
    push_link_line(out, name, tail, head, transit, capacity)?;
    Ok(())
}

// Appends the links from the source into both rails.
fn push_first(alloc: Global, out: &mut Vec<u8>, draws: &mut Draws) -> Result<(), AllocError>
    ensures { OnOk result (WritesLinks links_in out.old.items out.new.items draws.old draws.new) }
{
    let above = numbered(alloc, b'u', 1)?;
    let below = numbered(alloc, b'l', 1)?;
    push_link(out, draws, b"su", b"s", &above)?;
    push_link(out, draws, b"sl", b"s", &below)?;
    Ok(())
}

// Appends the link along a rail, from a node to the next one. The link has the name of its tail.
fn push_rail(
    alloc: Global,
    out: &mut Vec<u8>,
    draws: &mut Draws,
    letter: u8,
    index: u64,
) -> Result<(), AllocError>
    requires { index ≤ most_rungs }
    ensures { OnOk result (WritesLinks
        (link_from (letter ∷ digits_of index) (letter ∷ digits_of index)
        (letter ∷ digits_of (index + 1)) ∷ [])
        out.old.items out.new.items draws.old draws.new) }
{
    let here = numbered(alloc, letter, index)?;
    let next = numbered(alloc, letter, index + 1)?;
    push_link(out, draws, &here, &here, &next)?;
    Ok(())
}

// Appends the links along both rails, from each rung to the next.
fn push_rails(
    alloc: Global,
    out: &mut Vec<u8>,
    draws: &mut Draws,
    rungs: u64,
) -> Result<(), AllocError>
    requires some { 1 ≤ rungs }
    requires few { rungs ≤ most_rungs }
    ensures { OnOk result
        (WritesLinks (links_along rungs) out.old.items out.new.items draws.old draws.new) }
{
    for index in 1..rungs {
        push_rail(alloc, out, draws, b'u', index)?;
        push_rail(alloc, out, draws, b'l', index)?;
    }
    Ok(())
}

// Appends the link down a rung.
fn push_rung(
    alloc: Global,
    out: &mut Vec<u8>,
    draws: &mut Draws,
    index: u64,
) -> Result<(), AllocError>
    ensures { OnOk result
        (WritesLinks (rung_at index ∷ []) out.old.items out.new.items draws.old draws.new) }
{
    let name = numbered(alloc, b'r', index)?;
    let above = numbered(alloc, b'u', index)?;
    let below = numbered(alloc, b'l', index)?;
    push_link(out, draws, &name, &above, &below)?;
    Ok(())
}

// Appends the links down all rungs.
fn push_rungs(
    alloc: Global,
    out: &mut Vec<u8>,
    draws: &mut Draws,
    rungs: u64,
) -> Result<(), AllocError>
    requires { rungs ≤ most_rungs }
    ensures { OnOk result
        (WritesLinks (links_down rungs) out.old.items out.new.items draws.old draws.new) }
{
    for index in 1..rungs + 1 {
        push_rung(alloc, out, draws, index)?;
    }
    Ok(())
}

// Appends the links from both rails to the sink.
fn push_last(
    alloc: Global,
    out: &mut Vec<u8>,
    draws: &mut Draws,
    rungs: u64,
) -> Result<(), AllocError>
    ensures { OnOk result
        (WritesLinks (links_out rungs) out.old.items out.new.items draws.old draws.new) }
{
    let above = numbered(alloc, b'u', rungs)?;
    let below = numbered(alloc, b'l', rungs)?;
    push_link(out, draws, b"ut", &above, b"t")?;
    push_link(out, draws, b"lt", &below, b"t")?;
    Ok(())
}

/// Appends the lines of all links. Fails if an allocation fails.
pub fn push_links(
    alloc: Global,
    out: &mut Vec<u8>,
    draws: &mut Draws,
    rungs: u64,
) -> Result<(), AllocError>
    requires some { 1 ≤ rungs }
    requires few { rungs ≤ most_rungs }
    ensures { OnOk result
        (WritesLinks (ladder_ends rungs) out.old.items out.new.items draws.old draws.new) }
{
    push_first(alloc, out, draws)?;
    push_rails(alloc, out, draws, rungs)?;
    push_rungs(alloc, out, draws, rungs)?;
    push_last(alloc, out, draws, rungs)?;
    Ok(())
}
