//! Words at their places.

ghost use Rattle.std.specs.Prelude.{◌≡◌, IfOk, IsSome, Some};
ghost use Rattle.p3_task.specs.Grammar.Words.{word_place};
ghost use Rattle.p3_outline.specs.Nodes.{expression_of};
ghost use Rattle.p3_syntax.specs.Reading.{Gives};
ghost use Rattle.p3_syntax.specs.Trees.{the_word};

use p3_base::{Name, NoMemory};
use p3_outline::View;
use p3_task::Ref;
use std::alloc::Global;

/// A word as it stands in the text.
#[derive(Clone, Copy)]
pub struct TextWord<'a> {
    /// Its bytes.
    pub text: &'a [u8],
    /// Its offset.
    pub at: u32,
}

/// The word that a view is.
pub fn word<'a>(view: View<'_, 'a>) -> TextWord<'a>
    requires tree { IsSome (word_place (expression_of view)) }
    ensures { word_place (expression_of view.entry) ≡ Some (the_word result) }
{
    TextWord {
        text: view.word().unwrap(),
        at: view.offset(),
    }
}

/// A word, copied.
pub fn copied(alloc: Global, word: TextWord<'_>) -> Result<Ref, NoMemory>
    ensures { IfOk result (λ name. name ≡ the_word word.entry) }
{
    Ok(Ref {
        name: Name::of(alloc, word.text)?,
        at: word.at,
    })
}

/// Reads the word that a view is, as a name, a variable or whatever else stands there.
pub fn name(alloc: Global, view: View<'_, '_>) -> Result<Ref, NoMemory>
    requires tree { IsSome (word_place (expression_of view)) }
    ensures { Gives result (word_place (expression_of view.entry)) }
{
    copied(alloc, word(view))
}
