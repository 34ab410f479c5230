// Canonical texts of ladders. A line has a number and how many rungs, 1 to 30.
ghost use Rattle.std.specs.Prelude.{◌≤◌};
ghost use Rattle.nf_gen.specs.Ladder.{most_rungs};

use crate::shown::as_text;
use nf_gen::generated;
use nf_net::text;
use std::alloc::{AllocError, Global};
use std::io;

// Returns the number and the rungs that a line asks for.
fn asked(line: &str) -> Option<(u64, u32)> {
    let (number, rungs) = line.split_once(' ')?;
    Some((number.parse().ok()?, rungs.parse().ok()?))
}

fn ladder(alloc: Global, number: u64, rungs: u32) -> Result<Vec<u8>, AllocError>
    requires some { 1 ≤ rungs }
    requires few { rungs ≤ most_rungs }
{
    let net = generated(alloc, number, rungs)?;
    text(alloc, &net)
}

// Prints the text of a ladder.
fn tell_ladder(rt: &HostRuntime, number: u64, rungs: u32) -> io::Result<()>
    requires some { 1 ≤ rungs }
    requires few { rungs ≤ most_rungs }
{
    let text = ladder(rt.alloc(), number, rungs)?;
    print!(rt; "{}", as_text(&text))
}

/// Prints the text of the ladder that a line asks for, or `no ladder`.
pub fn tell(rt: &HostRuntime, line: &str) -> io::Result<()> {
    match asked(line) {
        Some((number, rungs)) if 1 <= rungs && rungs <= 30 => tell_ladder(rt, number, rungs),
        _ => println!(rt; "no ladder"),
    }
}
