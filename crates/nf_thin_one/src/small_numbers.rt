// Whether the numbers of a table are small.
ghost use Rattle.std.specs.Prelude.{IsTrue};
ghost use Rattle.nf_frac.specs.Parts.{IsWithin};
ghost use Rattle.nf_frac.specs.Short.{short};
ghost use Rattle.nf_linear.specs.Holding.{takes_small};
ghost use Rattle.nf_thin_one.specs.Filling.{HoldsCapacity, HoldsNumbers};

use nf_frac::Q;
use nf_graph::LinkId;
use nf_net::{Link, Network};

// Returns whether numerator and denominator of a number have at most 63 bits.
fn is_small(number: Q) -> bool
    ensures { IsTrue result → IsWithin short number }
{
    number.small().is_some()
}

// Returns whether the capacity of a link is small, or it has none.
fn has_small_capacity(link: Link) -> bool
    ensures { IsTrue result → HoldsCapacity takes_small link }
{
    match link.capacity {
        Some(capacity) => is_small(capacity),
        None => true,
    }
}

/// Returns whether a supply rate and the capacities of all links are small. A table of small numbers can then hold the equations of each
/// pattern.
pub fn has_small_numbers(net: &Network, rate: Q) -> bool
    ensures { IsTrue result → HoldsNumbers takes_small net.now.net rate }
{
    for e in 0..net.link_count() {
        if !has_small_capacity(net.link(LinkId(e))) {
            return false;
        }
    }
    is_small(rate)
}
