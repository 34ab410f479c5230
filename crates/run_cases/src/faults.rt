// Calls that fail in a run.

/// The numbers of the failing calls, counted from 1; 0 means that none fails.
#[derive(Clone, Copy)]
pub struct Faults {
    pub fetch: u32,
    pub out: u32,
    pub err: u32,
}

impl Faults {
    /// Returns the value with which no call fails.
    pub fn none() -> Faults {
        Faults {
            fetch: 0,
            out: 0,
            err: 0,
        }
    }

    /// Returns these faults, changed by the fault that a line of the input states.
    pub fn with(self, line: &str) -> Faults {
        match line.split_once(' ') {
            Some(("fetch", call)) => Faults {
                fetch: call.parse().unwrap_or(0),
                ..self
            },
            Some(("out", call)) => Faults {
                out: call.parse().unwrap_or(0),
                ..self
            },
            Some(("err", call)) => Faults {
                err: call.parse().unwrap_or(0),
                ..self
            },
            _ => self,
        }
    }
}
