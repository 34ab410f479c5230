// The table of a pattern, solved without memory.
ghost use Rattle.std.specs.Prelude.{◌≡◌, ◌<◌, ◌≤◌, length};
ghost use Rattle.nf_frac_def.specs.declared.Part.TheVariants as Part;
ghost use Rattle.nf_frac_def.specs.Passing.{passes_Q};
ghost use Rattle.nf_frac_def.specs.Checked.{at_part, seen_at};
ghost use Rattle.nf_linear_def.specs.Table.{table_list};
ghost use Rattle.nf_thin_def.specs.Equations.{unknowns, equations};
ghost use Rattle.nf_linear.specs.Grids.{values_if};
ghost use Rattle.nf_thin_equation_laws.specs.Equations.{IsPatternIn};

use crate::filling::fill;
use nf_frac::{PassedAt, Q};
use nf_graph::LinkSets;
use nf_linear::{Eliminated, Grid, solve_grid};
use nf_net::Network;
use nf_pattern::Pattern;

/// `try_pattern` solves systems of at most this many unknowns, the nodes and the active links, without allocating.
pub const MOST_GRID_UNKNOWNS: u32 = 32;

// Solves the table on a grid of this size. Not inlined, so that no call makes room for a larger grid than it uses.
#[inline(never)]
fn solve_on<const N: usize>(
    count: u32,
    net: &Network,
    sets: &LinkSets,
    rate: Q,
    pattern: &Pattern,
    values: &mut [Q],
) -> Result<Eliminated, PassedAt<Q>>
    requires pattern { IsPatternIn net.now.net sets.now pattern.now }
    requires count { count ≡ length (unknowns net.now.net sets.now) }
    requires size { (0 < count) × (count ≤ N) }
    requires few { N ≤ 32 }
    requires values { length values.old ≡ count }
    ensures { seen_at (λ found. values_if found values.new) (λ q. q) result
        ≡ at_part Part.Table
        (table_list passes_Q (equations net.now.net sets.now rate pattern.now)) }
{
    let mut grid = Grid::<N>::zero(count);
    fill(&mut grid, net, sets, rate, pattern);
    solve_grid(&mut grid, values)
}

/// Returns whether the equations of a pattern have one solution, which `values` then holds, or the first operation that passes. They
/// are solved on the smallest grid that has room for the unknowns.
pub fn solve_pattern(
    count: u32,
    net: &Network,
    sets: &LinkSets,
    rate: Q,
    pattern: &Pattern,
    values: &mut [Q],
) -> Result<Eliminated, PassedAt<Q>>
    requires pattern { IsPatternIn net.now.net sets.now pattern.now }
    requires count { count ≡ length (unknowns net.now.net sets.now) }
    requires few { count ≤ 32 }
    requires values { length values.old ≡ count }
    ensures { seen_at (λ found. values_if found values.new) (λ q. q) result
        ≡ at_part Part.Table
        (table_list passes_Q (equations net.now.net sets.now rate pattern.now)) }
{
    if count <= 4 {
        solve_on::<4>(count, net, sets, rate, pattern, values)
    } else if count <= 8 {
        solve_on::<8>(count, net, sets, rate, pattern, values)
    } else if count <= 16 {
        solve_on::<16>(count, net, sets, rate, pattern, values)
    } else {
        solve_on::<32>(count, net, sets, rate, pattern, values)
    }
}
