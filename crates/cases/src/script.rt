use crate::tally::Tally;

/// A call on an open case. A script is a list of calls, so they are plain values.
#[derive(Clone, Copy)]
pub enum Call<'a> {
    HandIn(&'a [u8]),
    Verdict,
    Count,
}

/// The verdict and the count of a case at one moment.
#[derive(Clone, Copy)]
pub struct Standing {
    pub lowest: Option<u16>,
    pub tally: Tally,
}
