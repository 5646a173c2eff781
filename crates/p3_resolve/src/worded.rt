//! Things that have a name where they are declared.

ghost use Rattle.std.specs.Prelude.{◌≡◌, map};
ghost use Rattle.p3_task.specs.declared.term.Ref.{Ref as Word};
ghost use Rattle.p3_numbers.specs.Keys.{start_of};

use p3_numbers::{Digest, Key};
use p3_task::{Action, Header, Ref, Typed};

/// What is declared by a word.
pub(crate) trait Worded {
    ghost word_of: { Self → Word };

    /// The word.
    fn word(&self) -> &Ref
        ensures { result.now ≡ word_of self.now };
}

impl Worded for Typed {
    ghost word_of = { λ item. item.name };

    fn word(&self) -> &Ref {
        &self.name
    }
}

impl Worded for Header {
    ghost word_of = { λ header. header.name };

    fn word(&self) -> &Ref {
        &self.name
    }
}

impl Worded for Action {
    ghost word_of = { λ action. action.name };

    fn word(&self) -> &Ref {
        &self.name
    }
}

/// The key of the words by which these are declared.
pub(crate) fn word_key<T: Worded>(items: &[T]) -> Key
    ensures { result.start ≡ start_of (map (λ item. (T.word_of item).name) items.now) }
{
    let mut digest = Digest::new();
    for item in items {
        digest.tell(item.word().name.bytes());
    }
    digest.key()
}
