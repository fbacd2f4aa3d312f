//! One bit for each of 4,096 runs.

#![tactic(auto)]

mod marks;
mod runs;

pub use marks::Marks;
