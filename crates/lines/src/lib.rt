//! Printed lines: the answer to a file or a hand-in, and the report on a case.

#![tactic(auto)]

mod line;
mod write;

pub use line::{Line, Report};
pub use write::write_line;
