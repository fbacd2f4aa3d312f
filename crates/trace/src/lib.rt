//! What a run does to memory, event by event, and why a call is declined.

#![tactic(auto)]

mod event;
mod refusal;
mod same;

pub use event::{Access, Event, Kind};
pub use refusal::{Cause, Refusal};
pub use same::same_word;
