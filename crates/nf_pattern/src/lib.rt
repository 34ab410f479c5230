//! Patterns: a state for each active link that is not resetting. The thin flow of a phase is found by its pattern. This is the project's
//! own form of the cases of Cominetti, Correa and Larré 2015. The crate makes the base pattern of a phase, and lists the patterns to try.
#![tactic(auto)]

mod assignments;
mod bases;
mod choice;
mod entered;
mod firm;
mod firming;
mod laws;
mod pattern;
mod patterns;
mod question;
mod sole;
mod stated;
mod trail;
mod walking;

pub use bases::base;
pub use choice::rank;
pub use laws::{given_are_fronts, questions_have_listings};
pub use nf_model::State;
pub use pattern::Pattern;
pub use patterns::Patterns;
