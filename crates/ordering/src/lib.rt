//! Ordering models: which accesses a processor may reorder, and what an optimiser may then remove.

#![tactic(auto)]

mod model;
mod named;
mod pinned;
mod pins;

pub use model::{Model, Removal};
pub use named::{Clr, Ibm390, Pso, Sc, Tso};
pub use pinned::Pinned;
pub use pins::Pins;
