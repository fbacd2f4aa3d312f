//! Snippets: how their statements are kept, and how they are read from bytes.

#![tactic(auto)]

mod body;
mod limits;
mod read;
mod runs;
mod snippet;
mod statement;

pub use body::Body;
pub use limits::Limits;
pub use read::read_body;
pub use snippet::Snippet;
pub use statement::Statement;
