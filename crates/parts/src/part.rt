/// One part of a stream, with its place in the stream.
#[derive(Clone, Copy)]
pub enum Part<'a> {
    Model { byte: u8, at: usize },
    Pair { bytes: &'a [u8], at: usize },
    HandIn { bytes: &'a [u8], at: usize },
}
