// The parser state of a flows file.
ghost use Rattle.std.specs.Prelude.{◌≡◌, ◌<◌, if◌then◌else◌, length, set, Some, Ok, Err, IfOk, OnOk, MatchResult};
ghost use Rattle.nf_complete_def.specs.declared.FlowsRule.TheVariants.{S10};
ghost use Rattle.nf_complete_def.specs.FlowsFile.{is_given, add_flows, or_nothing, if_ended, flows_frame};
ghost use Rattle.nf_side.specs.Said.{said_by};
ghost use Rattle.nf_side.specs.Drafted.{open_frame};
ghost use Rattle.nf_side.specs.Faults.{IfBroken};
ghost use Rattle.nf_complete_read.specs.Drafts.{HasPlaces};
ghost use Rattle.nf_complete_read.specs.Files.{given_of};

use crate::entry::{Entry, read_entry};
use crate::flows::Flows;
use crate::reading::FlowsFault;
use nf_complete_def::FlowsRule;
use nf_frac::Q;
use nf_net::Network;
use nf_side::{FileHead, LineFault, ReadLine, SideDraft};
use std::alloc::{AllocError, Global};
use std::marker::Model;

/// The parser state: the flows of links and slopes of nodes read so far, and whether `end` was read.
#[derive(Drop)]
pub struct Draft {
    flows: Vec<Option<Q>>,
    slopes: Vec<Option<Q>>,
    ended: bool,
}

impl Model for Draft {
    ghost use Rattle.nf_complete_def.specs.FlowsFile.{FlowsDraft};

    ghost Value = { FlowsDraft };

    ghost view = { λ d. record { flows = d.flows.items; slopes = d.slopes.items; ended = d.ended } };
}

// Sets the number at an index. Refuses with S10 if there is one already.
fn put(numbers: &mut Vec<Option<Q>>, place: usize, number: Q) -> Result<(), FlowsRule>
    requires { place < length numbers.old.items }
    ensures puts { (if is_given numbers.old.items place then Err S10 else Ok
        (set numbers.old.items place (Some number)))
        ≡ said_by (λ _. numbers.new.items) result }
    ensures count { OnOk result (length numbers.new.items ≡ length numbers.old.items) }
{
    if numbers[place].is_some() {
        return Err(FlowsRule::S10);
    }
    numbers[place] = Some(number);
    Ok(())
}

// Returns the numbers, with 0 for each number that was not read.
fn or_zero(alloc: Global, numbers: &[Option<Q>]) -> Result<Vec<Q>, AllocError>
    ensures { IfOk result (λ all. all.items ≡ or_nothing numbers.now) }
{
    numbers
        .iter()
        .map(|number| number.unwrap_or(Q::zero()))
        .collect(alloc)
}

impl Draft {
    // Adds the entry of a line. Refuses with the first of S4 to S10 that the line breaks.
    fn add(&mut self, net: &Network, line: &ReadLine) -> Result<(), FlowsRule>
        requires places { HasPlaces net.now self.old }
        ensures adds { add_flows net.now self.old line.now.words ≡ said_by (λ _. self.new) result }
        ensures places { OnOk result (HasPlaces net.now self.new) }
    {
        if self.ended {
            return Err(FlowsRule::S4);
        }
        match read_entry(net, line)? {
            Entry::Flow(link, flow) => put(&mut self.flows, link.index(), flow)?,
            Entry::Slope(node, slope) => put(&mut self.slopes, node.index(), slope)?,
            Entry::End => self.ended = true,
        }
        Ok(())
    }

    /// Returns the flows and slopes. Refuses with S11 if there was no `end` line, or if an allocation fails.
    pub fn close(&self, alloc: Global) -> Result<Flows, FlowsFault>
        ensures closes { MatchResult result (λ flows. if_ended self.now ≡ Ok (given_of flows))
            (λ fault. IfBroken fault (λ broken. if_ended self.now ≡ Err broken)) }
        ensures flows { IfOk result (λ flows. length flows.flows.items ≡ length self.now.flows) }
        ensures slopes { IfOk result (λ flows. length flows.slopes.items ≡ length self.now.slopes) }
    {
        if !self.ended {
            return Err(FlowsFault::Broken {
                rule: FlowsRule::S11,
                line: 0,
            });
        }
        Ok(Flows {
            flows: or_zero(alloc, &self.flows)?,
            slopes: or_zero(alloc, &self.slopes)?,
        })
    }
}

impl SideDraft for Draft {
    type Rule = FlowsRule;

    ghost frame = { λ n. open_frame (flows_frame n) };

    ghost fits = { HasPlaces };

    fn head() -> FileHead<FlowsRule> {
        FileHead {
            not_ascii: FlowsRule::S1,
            long_line: FlowsRule::S2,
            no_head: FlowsRule::S3,
            keyword: b"flows",
        }
    }

    fn new(alloc: Global, net: &Network) -> Result<Draft, AllocError> {
        // Proof: each link and each node has a name.
        net.recall();
        Ok(Draft {
            flows: vec![in alloc; None; net.link_count() as usize]?,
            slopes: vec![in alloc; None; net.node_count() as usize]?,
            ended: false,
        })
    }

    fn add_line(&mut self, net: &Network, line: &ReadLine) -> Result<(), LineFault<FlowsRule>> {
        if let Err(rule) = self.add(net, line) {
            return Err(LineFault::Broken(rule));
        }
        Ok(())
    }
}
