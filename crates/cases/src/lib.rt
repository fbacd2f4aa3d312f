//! A case: a pair, a model and the hand-ins so far, with a verdict and a count at any moment.

#![tactic(auto)]

mod active;
mod ask;
mod case;
mod hand;
mod playing;
mod script;
mod seal;
mod sealed;
mod tally;

pub use case::Case;
pub use playing::play;
pub use script::{Call, Standing};
pub use sealed::Sealed;
pub use tally::Tally;
