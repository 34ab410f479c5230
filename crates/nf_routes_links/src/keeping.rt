// What is kept of the entries after each link.
ghost use Rattle.std.specs.Prelude.{◌≡◌, map, OnOk};
ghost use Rattle.nf_routes_links.specs.Keeping.{last_alone, kept_after};
ghost use Rattle.nf_routes_links.specs.Standing.{seen_so_far};

use crate::so_far::SoFar;
use crate::stages::Stages;
use std::alloc::AllocError;

/// What is kept of each route's entries after a link is loaded. No later link needs more than the last one.
#[derive(Clone, Copy)]
pub enum Kept {
    Every,
    Last,
}

// Drops all entries of each route but the last.
fn keep_last_all(entries: &mut [Stages]) -> Result<(), AllocError>
    ensures { OnOk result (entries.new ≡ map last_alone entries.old) }
{
    for i in 0..entries.len() {
        entries[i].keep_last()?;
    }
    Ok(())
}

/// Drops the entries that are not kept.
pub(crate) fn keep(so_far: &mut SoFar, kept: Kept) -> Result<(), AllocError>
    ensures { OnOk result (seen_so_far so_far.new ≡ kept_after kept (seen_so_far so_far.old)) }
{
    match kept {
        Kept::Every => Ok(()),
        Kept::Last => {
            keep_last_all(&mut so_far.entries)?;
            Ok(())
        }
    }
}
