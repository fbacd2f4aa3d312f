//! The judging of one hand-in: whether its steps lead from the original's run to the replacement's.

#![tactic(auto)]

mod decide;
mod performed;

pub use decide::judge;
