//! Definitions of a run's steps beyond those of the phase run (`nf_thin_def`): how a run is restored from a flow, the remainder of an
//! interrupted phase, and phases of greatest length. The crate has definitions only; see `specs/`.
#![tactic(auto)]
