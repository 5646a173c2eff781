//! A command with its files.

ghost use Rattle.std.specs.Prelude.{◌≡◌, ◌≤◌, length, IsTrue};
ghost use Rattle.p3_tree.specs.Commands.{row, sample_limit};

use p3_base::{Role, Word};
use p3_tree::CommandKind;

/// A command with the names of its files.
#[derive(Clone, Copy)]
pub(crate) struct Request<'a> {
    /// Which command it is.
    pub(crate) kind: CommandKind,
    /// The number behind its word, or 0 where there is none.
    pub(crate) number: u32,
    /// The names of the files that it reads, in order.
    pub(crate) reads: &'a [Word],
    /// The names of the files that it writes, in order.
    pub(crate) writes: &'a [Word],
    pub ghost all_reads: { length reads.now ≡ length (row kind).reads },
    pub ghost all_writes: { length writes.now ≡ length (row kind).writes },
    pub ghost sampled: { IsTrue (row kind).is_numbered → (1 ≤ number) × (number ≤ sample_limit) },
}

/// A file that is read.
#[derive(Clone, Copy)]
pub struct Input<'a> {
    /// What it is.
    pub role: Role,
    /// Its name.
    pub name: &'a Word,
}
