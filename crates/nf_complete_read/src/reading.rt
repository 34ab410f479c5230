// Reading of a flows file.
ghost use Rattle.std.specs.Prelude.{◌≡◌, ◌≤◌, length, Ok, Err, IfOk, MatchResult};
ghost use Rattle.nf_text_def.specs.Faults.{longest_text};
ghost use Rattle.nf_side.specs.Faults.{IfBroken};
ghost use Rattle.nf_complete_def.specs.FlowsFile.{flows_in};
ghost use Rattle.nf_complete_read.specs.Files.{given_of};

use crate::draft::Draft;
use crate::flows::Flows;
use nf_complete_def::FlowsRule;
use nf_net::Network;
use nf_side::{FileFault, read_draft};
use std::alloc::Global;

/// A reason to refuse a flows file.
pub type FlowsFault = FileFault<FlowsRule>;

/// Reads the flows and slopes of a network from a text of at most 67,108,864 bytes. Refuses with the first broken rule and its line. Rules
/// of all bytes and lines come first, then rules of single lines in order, then the rule of the whole file, with line 0.
pub fn parse_flows(alloc: Global, net: &Network, text: &[u8]) -> Result<Flows, FlowsFault>
    requires { length text.now ≤ longest_text }
    ensures reads { MatchResult result (λ flows. flows_in net.now text.now ≡ Ok (given_of flows))
        (λ fault. IfBroken fault (λ broken. flows_in net.now text.now ≡ Err broken)) }
    ensures links { IfOk result (λ flows. length flows.flows.items ≡ length net.now.net.links) }
    ensures nodes { IfOk result (λ flows. length flows.slopes.items ≡ net.now.net.nodes) }
{
    // Proof: each link and each node has a name.
    net.recall();
    let draft = read_draft::<Draft>(alloc, net, text)?;
    draft.close(alloc)
}
