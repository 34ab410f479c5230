// Results of requests.
ghost use Rattle.std.specs.Prelude.{◌≡◌};
ghost use Rattle.std.specs.Option.{option_copied};
ghost use Rattle.nf_app_answers.specs.Outcomes.{stop_of};

use crate::arrival::Arrival;
use crate::gen_text::Ladder;
use nf_check::Answer;
use nf_complete::Settled;
use nf_curve::Stop;
use nf_forever::Forever;
use nf_frac::Q;
use nf_load::Loaded;
use nf_net::Network;
use nf_phase::Solution;
use nf_quick::{Augment, Quick};
use nf_routes::{Carried, Routes};

/// The result of a request in its network.
#[derive(Drop)]
pub enum Computed {
    /// The run up to a horizon.
    Solved {
        horizon: Q,
        solution: Solution,
    },
    /// The run without a horizon.
    SolvedForever {
        forever: Forever,
    },
    /// The canonical text of the network.
    Shown {
        text: Vec<u8>,
    },
    /// The loadings of the links, up to a horizon.
    Loaded {
        horizon: Q,
        links: Vec<Loaded>,
    },
    /// The verdict on the flow of a report.
    Checked {
        verdict: Answer,
    },
    /// A quickest flow with its text and arrival.
    Quickest {
        quick: Quick,
        arrival: Arrival,
        text: Vec<u8>,
    },
    /// The quickest flow exceeds its budget of walks. `walks` holds the pushed walks, as many as allowed, and `text` is their text.
    TooManyWalks {
        augments: u64,
        walks: Vec<Augment>,
        text: Vec<u8>,
    },
    /// The run in a ladder up to a horizon. `arrival` is the arrival of the last departure at the sink.
    Generated {
        ladder: Ladder,
        horizon: Q,
        solution: Solution,
        arrival: Q,
    },
    /// A settled thin flow.
    Settled {
        settled: Settled,
    },
    /// The loading along the routes of a file, up to a horizon.
    Distributed {
        routes: Routes,
        horizon: Q,
        routed: Carried,
    },
}

impl Computed {
    /// Returns why the run of the result stopped, if it did. Results without a run have no stop.
    pub fn stop(&self) -> Option<&Stop>
        ensures { option_copied result ≡ stop_of self.now }
    {
        match self {
            Computed::Solved { solution, .. } => solution.stopped.as_ref(),
            Computed::SolvedForever { forever, .. } => forever.stopped.as_ref(),
            Computed::Shown { .. } => None,
            Computed::Loaded { .. } => None,
            Computed::Checked { .. } => None,
            Computed::Quickest { .. } => None,
            Computed::TooManyWalks { .. } => None,
            Computed::Generated { solution, .. } => solution.stopped.as_ref(),
            Computed::Settled { .. } => None,
            Computed::Distributed { .. } => None,
        }
    }
}

/// A network, and a request's result in it.
#[derive(Drop)]
pub struct Outcome {
    pub net: Network,
    pub found: Computed,
}
