// Moments of a link.
use nf_frac::Q;
use std::marker::Model;

/// A moment: a time, the amount entered by then, and the queue then.
#[derive(Clone, Copy)]
pub(crate) struct Waits {
    pub time: Q,
    pub amount: Q,
    pub queue: Q,
}

impl Model for Waits {
    ghost use Rattle.nf_load_def.specs.Loading.{Waits as SeenWaits};
    ghost use Rattle.nf_load.specs.Codes.{coded_waits};

    ghost Value = { SeenWaits };

    ghost coded = { coded_waits };

    ghost view = { λ a. record { time = a.time; amount = a.amount; queue = a.queue } };

    ghost inverse = { λ w. record { time = w.time; amount = w.amount; queue = w.queue } };
}

/// The slopes of the amount entered and of the queue from one moment to the next.
#[derive(Clone, Copy)]
pub(crate) struct Pace {
    pub rate: Q,
    pub change: Q,
}

/// The slopes of exit and outflow from one moment to the next.
#[derive(Clone, Copy)]
pub(crate) struct Leaving {
    pub exit: Q,
    pub outflow: Q,
}

/// A moment, with the exit of flow that enters then.
#[derive(Clone, Copy)]
pub(crate) struct Exit {
    pub waits: Waits,
    pub exit: Q,
}

impl Model for Exit {
    ghost use Rattle.nf_load_def.specs.Loading.{Exit as SeenExit};
    ghost use Rattle.nf_load.specs.Codes.{coded_exit};

    ghost Value = { SeenExit };

    ghost coded = { coded_exit };

    ghost view = { λ a. record { waits = a.waits; exit = a.exit } };

    ghost inverse = { λ l. record { waits = l.waits; exit = l.exit } };
}
