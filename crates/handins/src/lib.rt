//! Hand-in files: which run of the replacement follows from which run of the original, and how.

#![tactic(auto)]

mod hand_in;
mod read;

pub use hand_in::HandIn;
pub use read::read_hand_in;
