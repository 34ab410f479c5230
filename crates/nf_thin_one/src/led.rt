// Whether a pattern leads to each node: if it is accepted, its slopes are then those of a thin flow.
ghost use Rattle.std.specs.Prelude.{◌≡◌, ◌<◌, ◌≤◌, ℕ, length, IsTrue};
ghost use Rattle.nf_model.specs.Entries.{Has};
ghost use Rattle.nf_thin_equation_laws.specs.Equations.{IsPatternIn};
ghost use Rattle.nf_thin_laws.specs.PatternLaws.{EachIsLed};
ghost use Rattle.nf_thin_one.specs.Leading.{MayCarry, AreLed};

use nf_graph::{LinkId, LinkSets};
use nf_model::State;
use nf_net::{MOST_NODES, Network};
use nf_pattern::Pattern;

/// Returns whether the link is Tight, Full or resetting, so that it may carry flow. The contract promises nothing about `false`.
pub fn may_carry(sets: &LinkSets, pattern: &Pattern, link: LinkId) -> bool
    requires link { link < length pattern.now }
    requires sets { length sets.now.active ≡ length pattern.now }
    ensures { IsTrue result → MayCarry sets.now pattern.now link }
{
    if sets.resetting(link) {
        return true;
    }
    match pattern.state(link) {
        Some(State::Tight) => true,
        Some(State::Full) => true,
        _ => false,
    }
}

// Sets the flags of the nodes to which links that may carry flow lead.
fn flag_led(net: &Network, sets: &LinkSets, pattern: &Pattern, led: &mut [bool])
    requires pattern { IsPatternIn net.now.net sets.now pattern.now }
    requires nodes { net.now.net.nodes ≤ length led.old }
    requires led { AreLed net.now.net sets.now pattern.now led.old }
    ensures { AreLed net.now.net sets.now pattern.now led.new }
{
    for e in 0..net.link_count() {
        let link = LinkId(e);
        if may_carry(sets, pattern, link) {
            let head = net.link(link).head;
            led[head.index()] = true;
        }
    }
}

// Returns whether the flags of the first nodes are set. The contract promises nothing about `false`.
fn are_set(flags: &[bool], nodes: u32) -> bool
    requires { nodes ≤ length flags.now }
    ensures { IsTrue result → (v : ℕ) → v < nodes → Has flags.now v }
{
    for v in 0..nodes {
        if !flags[v as usize] {
            return false;
        }
    }
    true
}

/// Returns whether a link that may carry flow leads to each node except the source. The contract promises nothing about `false`.
pub fn each_is_led(net: &Network, sets: &LinkSets, pattern: &Pattern) -> bool
    requires { IsPatternIn net.now.net sets.now pattern.now }
    ensures { IsTrue result → EachIsLed net.now.net sets.now pattern.now }
{
    // Proof: a network has at most 64 nodes.
    net.recall();
    let mut led = [false; MOST_NODES];
    led[net.source().index()] = true;
    flag_led(net, sets, pattern, &mut led);
    are_set(&led, net.node_count())
}
