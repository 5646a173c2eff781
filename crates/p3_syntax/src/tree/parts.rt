//! The parts of lists.

ghost use Rattle.std.specs.Prelude.{◌≡◌, ◌<◌, ◌≤◌, length, IsSome, Some};
ghost use Rattle.p3_task.specs.Grammar.Words.{parts_place, only, pair, headed};
ghost use Rattle.p3_outline.specs.Nodes.{expression_of, expressions_of};
ghost use Rattle.p3_syntax.specs.Trees.{the_pair, the_head};

use crate::tree::words::{TextWord, word};
use p3_outline::{Parts, View};

/// The parts of a list.
#[tactic(auto, using(crate::proofs::TreeLemmas::has_parts))]
pub fn parts<'o, 'a>(view: View<'o, 'a>) -> Parts<'o, 'a>
    requires tree { IsSome (parts_place (expression_of view)) }
    ensures parts { parts_place (expression_of view.entry) ≡ Some (expressions_of result) }
    ensures less { length result.nodes.now ≤ length view.entry.below.now }
{
    view.parts()
}

/// The one part.
pub fn only<'o, 'a>(mut parts: Parts<'o, 'a>) -> View<'o, 'a>
    requires tree { IsSome (only (expressions_of parts)) }
    ensures only { only (expressions_of parts.entry) ≡ Some (expression_of result) }
    ensures less { length result.below.now < length parts.entry.nodes.now }
{
    parts.next().unwrap()
}

/// The two parts.
pub fn pair<'o, 'a>(mut parts: Parts<'o, 'a>) -> (View<'o, 'a>, View<'o, 'a>)
    requires tree { IsSome (pair (expressions_of parts)) }
    ensures pair { pair (expressions_of parts.entry) ≡ Some (the_pair result) }
    ensures first { length result.0.below.now < length parts.entry.nodes.now }
    ensures second { length result.1.below.now < length parts.entry.nodes.now }
{
    let first = parts.next().unwrap();
    let second = parts.next().unwrap();
    (first, second)
}

/// A list that begins with a word.
#[derive(Clone, Copy)]
pub struct HeadedParts<'o, 'a> {
    /// The word.
    pub word: TextWord<'a>,
    /// What stands behind it.
    pub behind: Parts<'o, 'a>,
}

/// The word at the head, and what stands behind it.
pub fn headed<'o, 'a>(parts: Parts<'o, 'a>) -> HeadedParts<'o, 'a>
    requires tree { IsSome (headed (λ e. e) (expressions_of parts)) }
    ensures headed { headed (λ e. e) (expressions_of parts.entry) ≡ Some (the_head result) }
    ensures less { length result.behind.nodes.now < length parts.entry.nodes.now }
{
    let mut behind = parts;
    let word = word(behind.next().unwrap());
    HeadedParts { word, behind }
}
