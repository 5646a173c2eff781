//! Texts as words and parentheses, before any grammar.

use p3_base::{List, Name};

/// What a text spells: a word, or a list of what stands between a pair of parentheses.
#[derive(Debug, Drop)]
pub enum Expression {
    /// A word, lowered.
    Word {
        /// Its offset.
        at: u32,
        /// Its bytes, lowered.
        text: Name,
    },
    /// A list.
    Group {
        /// The offset of its `(`.
        at: u32,
        /// What it holds.
        parts: List<Expression>,
    },
}
