// The listing of a network's patterns.
ghost use Rattle.std.specs.Prelude.{◌≡◌, IfOk};
ghost use Rattle.nf_model.specs.Network.{unbounded as unbounded_of};
ghost use Rattle.nf_thin_rank.specs.Questions.{AsksOf};
ghost use Rattle.nf_thin_rank.specs.Posing.{IsPosed, IsPatternFor};

use crate::ranking::Ranking;
use nf_graph::LinkId;
use nf_net::Network;
use nf_pattern::{Pattern, Patterns};
use std::alloc::{AllocError, Global};

/// Returns for each link whether it is unbounded. Fails if an allocation fails.
pub fn unbounded_flags(alloc: Global, net: &Network) -> Result<Vec<bool>, AllocError>
    ensures { IfOk result (λ flags. flags.items ≡ unbounded_of net.now.net) }
{
    let mut flags = Vec::with_capacity(alloc, net.link_count() as usize)?;
    for e in 0..net.link_count() {
        let link = net.link(LinkId(e));
        flags.push(link.capacity.is_none())?;
    }
    Ok(flags)
}

/// Returns the listing of a ranking's patterns, in the order by changes from `base`, which need not be the ranking's base. Fails if an
/// allocation fails.
pub fn listing(alloc: Global, ranking: &Ranking, base: &Pattern) -> Result<Patterns, AllocError>
    requires ranking { IsPosed ranking.now }
    requires base { IsPatternFor ranking.now base.now }
    ensures asked { IfOk result
        (λ patterns. AsksOf ranking.now.net.now.net ranking.now.sets.now patterns) }
    ensures base { IfOk result (λ patterns. patterns.question.base ≡ base.now) }
    ensures place { IfOk result (λ patterns. patterns.place ≡ 0) }
{
    let net = ranking.net;
    let hops = net.hops();
    let nodes = net.node_count();
    let unbounded = unbounded_flags(alloc, net)?;
    Patterns::new(
        alloc,
        nodes,
        net.source(),
        hops,
        ranking.sets,
        base,
        &unbounded,
    )
}
