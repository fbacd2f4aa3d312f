//! A stream cut into its parts: a model byte, a pair file, and hand-in files, one after another.

#![tactic(auto)]

mod cutter;
mod next;
mod part;

pub use cutter::Parts;
pub use part::Part;
