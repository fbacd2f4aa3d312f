/// What a run that was carried out says of itself.
#[derive(Clone, Copy, Debug, PartialEq, Eq)]
pub struct Ran {
    // of its word
    pub length: usize,
    // how many choices it took
    pub taken: usize,
    // whether a choice that it did not take is not 0
    pub idle: bool,
}
