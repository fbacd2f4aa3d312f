//! Rewriting steps on a working word, and the judging of a derivation step by step.

#![tactic(auto)]

mod convert;
mod look;
mod working;

pub use working::{Denied, Question, Ranges, Rule, Step, Stopped, Working};
