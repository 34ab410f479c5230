// Refusals: runs without a text for the output.
ghost use Rattle.std.specs.Prelude.{◌≡◌};
ghost use Rattle.nf_app_answers.specs.Answers.{status_of};
ghost use Rattle.nf_app_answers.specs.Refusals.{refused_answer, refusal_of_fetch, refusal_of_net, refusal_of_loads, refusal_of_flows, refusal_of_routes, refusal_of_report, refusal_of_halt};
ghost use Rattle.nf_app_answers.specs.declared.refusal.Refusal.TheVariants as Refusal;

use crate::status::Status;
use nf_complete_read::{FlowsFault, FlowsRule};
use nf_edge::FetchFault;
use nf_frac::{Halt, PassedAt, Q};
use nf_load::{LoadRule, LoadsFault};
use nf_net::{NetFault, NetRule};
use nf_report::{ReportFault, ReportRule};
use nf_routes_read::{RoutesFault, RoutesRule};
use std::alloc::AllocError;

/// A reason to write no text to the output.
#[derive(Clone, Copy)]
pub enum Refusal {
    /// An allocation failed.
    NoMemory,
    /// The words are not a request.
    NoRequest,
    /// A file could not be read.
    ShelfFailed,
    /// A file has too many bytes.
    ShelfTooLong,
    /// The network file breaks `rule` first, in `line`.
    Malformed { rule: NetRule, line: u32 },
    /// The loads file breaks `rule` first, in `line`.
    MalformedLoads { rule: LoadRule, line: u32 },
    /// The flows file breaks `rule` first, in `line`.
    MalformedFlows { rule: FlowsRule, line: u32 },
    /// The routes file breaks `rule` first, in `line`.
    MalformedRoutes { rule: RoutesRule, line: u32 },
    /// The report breaks `rule` first, in `line`.
    MalformedReport { rule: ReportRule, line: u32 },
    /// An operation passes the bound.
    Passes(PassedAt<Q>),
    /// A walk of unbounded links leads from source to sink.
    Unbounded,
    /// The flows and slopes of the flows file are not a thin flow.
    NotThin,
    /// The flow of the report extends beyond the horizon.
    Earlier,
}

impl Refusal {
    /// Returns the status with which the program ends.
    pub fn status(&self) -> Status
        ensures { result ≡ status_of (refused_answer self.now) }
    {
        match self {
            Refusal::NoMemory => Status::Memory,
            Refusal::NoRequest => Status::Usage,
            Refusal::ShelfFailed => Status::Shelf,
            Refusal::ShelfTooLong => Status::Shelf,
            Refusal::Malformed { .. } => Status::Malformed,
            Refusal::MalformedLoads { .. } => Status::Malformed,
            Refusal::MalformedFlows { .. } => Status::Malformed,
            Refusal::MalformedRoutes { .. } => Status::Malformed,
            Refusal::MalformedReport { .. } => Status::Malformed,
            Refusal::Passes(_) => Status::Passed,
            Refusal::Unbounded => Status::Unbounded,
            Refusal::NotThin => Status::NotThin,
            Refusal::Earlier => Status::Earlier,
        }
    }
}

impl From<AllocError> for Refusal {
    ghost from_gives = { λ _ refusal. refusal ≡ Refusal.NoMemory };

    fn from(_: AllocError) -> Self {
        Refusal::NoMemory
    }
}

impl From<FetchFault> for Refusal {
    ghost from_gives = { λ fault refusal. refusal ≡ refusal_of_fetch fault };

    fn from(fault: FetchFault) -> Self {
        match fault {
            FetchFault::Failed => Refusal::ShelfFailed,
            FetchFault::TooLong => Refusal::ShelfTooLong,
            FetchFault::Memory => Refusal::NoMemory,
        }
    }
}

impl From<NetFault> for Refusal {
    ghost from_gives = { λ fault refusal. refusal ≡ refusal_of_net fault };

    fn from(fault: NetFault) -> Self {
        match fault {
            NetFault::Broken { rule, line } => Refusal::Malformed { rule, line },
            NetFault::Memory => Refusal::NoMemory,
        }
    }
}

impl From<LoadsFault> for Refusal {
    ghost from_gives = { λ fault refusal. refusal ≡ refusal_of_loads fault };

    fn from(fault: LoadsFault) -> Self {
        match fault {
            LoadsFault::Broken { rule, line } => Refusal::MalformedLoads { rule, line },
            LoadsFault::Memory => Refusal::NoMemory,
        }
    }
}

impl From<FlowsFault> for Refusal {
    ghost from_gives = { λ fault refusal. refusal ≡ refusal_of_flows fault };

    fn from(fault: FlowsFault) -> Self {
        match fault {
            FlowsFault::Broken { rule, line } => Refusal::MalformedFlows { rule, line },
            FlowsFault::Memory => Refusal::NoMemory,
        }
    }
}

impl From<RoutesFault> for Refusal {
    ghost from_gives = { λ fault refusal. refusal ≡ refusal_of_routes fault };

    fn from(fault: RoutesFault) -> Self {
        match fault {
            RoutesFault::Broken { rule, line } => Refusal::MalformedRoutes { rule, line },
            RoutesFault::Memory => Refusal::NoMemory,
        }
    }
}

impl From<ReportFault> for Refusal {
    ghost from_gives = { λ fault refusal. refusal ≡ refusal_of_report fault };

    fn from(fault: ReportFault) -> Self {
        match fault {
            ReportFault::Broken { rule, line } => Refusal::MalformedReport { rule, line },
            ReportFault::Memory => Refusal::NoMemory,
        }
    }
}

impl From<Halt<Q>> for Refusal {
    ghost from_gives = { λ halt refusal. refusal ≡ refusal_of_halt halt };

    fn from(halt: Halt<Q>) -> Self {
        match halt {
            Halt::Passed(at) => Refusal::Passes(at),
            Halt::Memory => Refusal::NoMemory,
        }
    }
}

impl From<PassedAt<Q>> for Refusal {
    ghost from_gives = { λ at refusal. refusal ≡ Refusal.Passes at };

    fn from(at: PassedAt<Q>) -> Self {
        Refusal::Passes(at)
    }
}
