//! Definitions of the operations on fractions that a run does, in their order, and of a run and its report: see `specs/`. An operation
//! sequence is written as the computation that does it (`nf_frac_def`). Its value is a result, or the first operation that passes the bound on
//! a fraction's numerator and denominator.
#![tactic(auto)]
