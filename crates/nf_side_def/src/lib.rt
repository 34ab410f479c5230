//! This crate defines the reading of side files: files that are given beside a network, such as loads, flows and routes files. The
//! definitions state the lines of their frame, the order in which rules are tested, and the line in which a rule is broken. `specs/`
//! holds the definitions, for any rules and any content.
#![tactic(auto)]
