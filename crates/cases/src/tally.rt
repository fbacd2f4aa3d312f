/// How many different runs are matched, and how many runs of the replacement are not idle.
#[derive(Clone, Copy)]
pub struct Tally {
    pub matched: u16,
    pub active: u16,
}
