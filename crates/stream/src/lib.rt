//! The judging of a whole stream: a model byte, a pair file and hand-ins, and every line that is
//! printed for them.

#![tactic(auto)]

mod hand_ins;
mod judge;
mod named;
mod open;
mod opened;
mod print;

pub use judge::judge_stream;
