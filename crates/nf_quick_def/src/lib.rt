//! Definitions for quickest flows by shortest residual walks: the meaning of the calls, and their fraction operations in order. The
//! crate has definitions only; see `specs/`. An operation sequence is written as the computation that performs it (`nf_frac_def`).
#![tactic(auto)]
