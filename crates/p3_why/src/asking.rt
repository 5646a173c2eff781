//! A question with its files.

ghost use Rattle.std.specs.Prelude.{◌≡◌, length};
ghost use Rattle.p3_why.specs.Questions.{roles_of};

use crate::question::Question;
use p3_base::Word;

/// What the words ask for, with the names of the files that are read.
#[derive(Clone, Copy)]
pub(crate) struct Asking<'a> {
    /// What is asked.
    pub(crate) question: Question,
    /// The names of the files, in order.
    pub(crate) names: &'a [Word],
    pub ghost all: { length names.now ≡ length (roles_of question) },
}
