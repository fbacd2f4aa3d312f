use lines::Report;

/// A case that is sealed: its report, and nothing else.
#[derive(Clone, Copy)]
pub struct Sealed {
    pub(crate) report: Report,
}
