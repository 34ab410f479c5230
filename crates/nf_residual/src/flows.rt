// Static flows: one rate for each link, indexed by link number.
ghost use Rattle.std.specs.Prelude.{◌≡◌, ◌<◌, length, set};
ghost use Rattle.nf_model.specs.Entries.{number_at};
ghost use Rattle.nf_quick_def.specs.Rounds.{lesser as lesser_by};

use nf_frac::Q;
use nf_graph::LinkId;

/// Returns the flow on a link, a rate.
pub fn flow_at(flows: &[Q], link: LinkId) -> Q
    requires { link < length flows.now }
    ensures { result ≡ number_at flows.now link }
{
    flows[link.index()]
}

/// Sets the flow of one link, a rate. The flows of the other links stay.
pub fn put_flow(flows: &mut Vec<Q>, link: LinkId, flow: Q)
    requires { link < length flows.old.items }
    ensures { flows.new.items ≡ set flows.old.items link flow }
{
    flows[link.index()] = flow;
}

/// Returns the lesser of `rate` and the least rate so far, or `rate` if there is none so far.
pub(crate) fn lesser(least: Option<Q>, rate: Q) -> Q
    ensures { result ≡ lesser_by least rate }
{
    match least {
        None => rate,
        Some(least) => least.lesser(rate),
    }
}
