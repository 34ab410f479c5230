//! This crate defines the operation sequences of the calls over curves, and the meanings of their results. See `specs/`. Each operation
//! sequence is a computation (`nf_frac_def`). The computation gives its value, or the first operation that passes the bound on numerators and
//! denominators.
#![tactic(auto)]
