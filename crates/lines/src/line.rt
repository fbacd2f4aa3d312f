use trace::Refusal;

/// What is reported of a case: the model's number, how many runs are not idle, how many runs are
/// matched, and the lowest run that is not, or none where the case is sound.
#[derive(Clone, Copy)]
pub struct Report {
    // a number, since anyone may add a model
    pub model: u8,
    pub active: u16,
    pub matched: u16,
    pub lowest: Option<u16>,
}

/// What one line says: the answer to a file or a hand-in, or the report on a case.
#[derive(Clone, Copy)]
pub enum Line {
    Answer(Result<(), Refusal>),
    Report(Report),
}
