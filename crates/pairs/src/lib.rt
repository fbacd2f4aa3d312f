//! Pair files: an original and a replacement, read from bytes.

#![tactic(auto)]

mod header;
mod pair;
mod read;

pub use header::check_header;
pub use pair::Pair;
pub use read::read_pair;
