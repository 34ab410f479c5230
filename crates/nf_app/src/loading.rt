// Loading all links of a network.
ghost use Rattle.std.specs.Prelude.{◌≡◌, length, map, IfOk};
ghost use Rattle.nf_rational.specs.Operations.{0ℚ};
ghost use Rattle.nf_rational.specs.Order.{◌≤ℚ◌};
ghost use Rattle.nf_frac_def.specs.Passing.{passes_Q};
ghost use Rattle.nf_frac_def.specs.Checked.{at_part, Gives};
ghost use Rattle.nf_frac_def.specs.declared.Part.TheVariants.{Load};
ghost use Rattle.nf_model.specs.Network.{ArePieces};
ghost use Rattle.nf_model_laws.specs.Capacity.{IsPositive};
ghost use Rattle.nf_load_def.specs.Loads.{load_link_list};
ghost use Rattle.nf_load.specs.Loadings.{loaded_of};
ghost use Rattle.nf_app.specs.Lists.{loading_list};

use nf_frac::{Halt, Q};
use nf_load::{Loaded, Loads, load_trace, supplied};
use nf_net::{Link, LinkId, Network, Piece};
use std::alloc::Global;

// Loads a link by pieces of inflow, up to a horizon.
fn load_by_pieces(
    alloc: Global,
    link: &Link,
    pieces: &[Piece],
    horizon: Q,
) -> Result<Loaded, Halt<Q>>
    requires pieces { ArePieces pieces.now }
    requires horizon { 0ℚ ≤ℚ horizon }
    requires transit { 0ℚ ≤ℚ link.now.transit }
    requires capacity { IsPositive link.now.capacity }
    ensures { Gives loaded_of (λ q. q) result
        (at_part Load (load_link_list passes_Q horizon (link.now, pieces.now))) }
{
    let inflow = supplied(alloc, pieces, horizon)?;
    load_trace(alloc, link.transit, link.capacity, &inflow, horizon)
}

/// Loads each link by its pieces, up to a horizon.
pub(crate) fn load_links(
    alloc: Global,
    net: &Network,
    loads: &Loads,
    horizon: Q,
) -> Result<Vec<Loaded>, Halt<Q>>
    requires many { length loads.now ≡ length net.now.net.links }
    requires horizon { 0ℚ ≤ℚ horizon }
    ensures list { Gives (λ links. map loaded_of links.items) (λ q. q) result
        (loading_list net.now loads.now horizon) }
    ensures many { IfOk result (λ links. length links.items ≡ length net.now.net.links) }
{
    let mut loaded = Vec::new(alloc);
    for link in 0..net.link_count() {
        let here = net.link(LinkId(link));
        let supplied = loads.pieces(LinkId(link));
        let loading = load_by_pieces(alloc, &here, supplied, horizon)?;
        loaded.push(loading)?;
    }
    Ok(loaded)
}
