//! Runs of snippets, by number.

#![tactic(auto)]

mod choices;
mod full;
mod machine;
mod ran;
mod registers;
mod runner;
mod span;

pub use ran::Ran;
pub use registers::Registers;
pub use runner::{never_idle, run, start_registers};
