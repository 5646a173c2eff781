//! Words of a text.

/// A word: where it stands, and how many bytes it has.
#[derive(Clone, Copy)]
pub(crate) struct Spot {
    pub(crate) at: u32,
    pub(crate) len: usize,
}
