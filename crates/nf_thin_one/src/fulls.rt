// The flow that fills a link, where the slope of its head is known.
ghost use Rattle.std.specs.Prelude.{◌≡◌};
ghost use Rattle.nf_frac_def.specs.Passing.{passes_Q};
ghost use Rattle.nf_thin_one.specs.Fulls.{full_of};

use nf_frac::Q;

/// Returns the flow that fills a link: its capacity times the slope of its head. Returns `None` for an unbounded link, or if the product
/// passes.
pub fn full_flow(capacity: Option<Q>, head_slope: Q) -> Option<Q>
    ensures { result ≡ full_of passes_Q capacity head_slope }
{
    match capacity {
        Some(capacity) => capacity.product(head_slope).ok(),
        None => None,
    }
}
