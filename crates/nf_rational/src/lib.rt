//! This crate defines the rational numbers of contracts and definitions, in `specs/`. The crate contains no code.
#![tactic(auto)]
