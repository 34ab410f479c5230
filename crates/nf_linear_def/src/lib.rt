//! Definitions of the operations that solve a linear system by elimination, in their order: see `specs/`. An operation sequence is written
//! as the computation that does it (`nf_frac_def`). The crate has definitions only.
#![tactic(auto)]
