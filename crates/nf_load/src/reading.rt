// The reading of a loads file.
ghost use Rattle.std.specs.Prelude.{◌≡◌, ◌≤◌, length, Ok, Err, IfOk, MatchResult};
ghost use Rattle.nf_text_def.specs.Faults.{longest_text};
ghost use Rattle.nf_side.specs.Faults.{IfBroken};
ghost use Rattle.nf_report_def.specs.LoadsFile.{loads_in};

use crate::draft::Draft;
use crate::loads::Loads;
use nf_net::Network;
use nf_report_def::LoadRule;
use nf_side::{FileFault, read_draft};
use std::alloc::Global;

/// Why a text is no loads file.
pub type LoadsFault = FileFault<LoadRule>;

/// The loads of a network that a text of at most 67,108,864 bytes stands for; or the first rule that it breaks, and the line. The
/// rules of all bytes and lines come first, then those of the lines one by one, then that of the file as a whole, with line 0.
pub fn parse_loads(alloc: Global, net: &Network, text: &[u8]) -> Result<Loads, LoadsFault>
    requires { length text.now ≤ longest_text }
    ensures reads { MatchResult result (λ loads. loads_in net.now text.now ≡ Ok loads)
        (λ fault. IfBroken fault (λ broken. loads_in net.now text.now ≡ Err broken)) }
    ensures links { IfOk result (λ loads. length loads ≡ length net.now.net.links) }
{
    // Proof: each link has a name.
    net.recall();
    let draft = read_draft::<Draft>(alloc, net, text)?;
    let links = draft.close()?;
    Ok(Loads::kept(links))
}
