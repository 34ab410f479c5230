// Statuses with which the program ends.
ghost use Rattle.std.specs.Prelude.{◌≡◌};

/// The status with which the program ends.
#[derive(Clone, Copy, Debug, PartialEq, Eq)]
pub enum Status {
    /// The whole text was written. A run of `solve`, `resume` or `gen` also reached its horizon. A run without a horizon continues forever.
    Ok,
    /// An allocation failed.
    Memory,
    /// The words are not a request.
    Usage,
    /// A file could not be read, or is too long.
    Shelf,
    /// A file breaks a rule.
    Malformed,
    /// The run made as many phases as allowed, and did not reach the horizon.
    Phases,
    /// A phase tried as many patterns as allowed, and there are more.
    Patterns,
    /// A named operation passes: its result, or for a sum a number computed for it, has a numerator or denominator beyond 2^127 - 1.
    Passed,
    /// No pattern of a phase is accepted, and no operation passes. No run ends with this status.
    NoPattern,
    /// Writing to the output failed.
    Output,
    /// The flow of the report is not an equilibrium.
    NotEquilibrium,
    /// A quickest flow pushed as many walks as allowed, and the next walk is shorter than the flow's time.
    Augments,
    /// A run without a horizon made as many phases as allowed.
    Events,
    /// A walk of unbounded links leads from source to sink. There is no quickest flow of an amount above 0.
    Unbounded,
    /// The flows and slopes of a flows file are not a thin flow.
    NotThin,
    /// The flow of the report extends beyond the horizon.
    Earlier,
}

impl Status {
    ghost use Rattle.nf_app_answers.specs.Answers.{status_number};

    /// Returns the exit status of the process.
    pub fn number(self) -> u8
        ensures { result ≡ status_number self }
    {
        match self {
            Status::Ok => 0,
            Status::Memory => 1,
            Status::Usage => 2,
            Status::Shelf => 3,
            Status::Malformed => 4,
            Status::Phases => 5,
            Status::Patterns => 6,
            Status::Passed => 7,
            Status::NoPattern => 8,
            Status::Output => 9,
            Status::NotEquilibrium => 10,
            Status::Augments => 11,
            Status::Events => 12,
            Status::Unbounded => 14,
            Status::NotThin => 15,
            Status::Earlier => 16,
        }
    }
}
