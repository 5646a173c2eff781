//! The tokens of a text, one after another.

ghost use Rattle.std.specs.Prelude.{◌≡◌, ◌≤◌, ◌<◌, ◌+◌, drop, false, length, codes, IfSome};
ghost use Rattle.std.specs.Str.{bytes_eq};
ghost use Rattle.p3_base.specs.declared.refusal.Side.TheVariants.{Written};
ghost use Rattle.p3_task.specs.Tokens.{tokens_from};
ghost use Rattle.p3_task.specs.Sides.{byte_limit};
ghost use Rattle.p3_lexer.specs.Lexing.{left, with_next, token_len, Rests, Takes};
ghost use Rattle.p3_lexer.specs.StepWords.{IsNextWord, IsPartOf};

use crate::place::{gap_end, word_end};
use std::marker::Model;

/// A token, or why there is none.
#[derive(Clone, Copy)]
pub enum Next<'a> {
    /// `(`, `)` or a word: its bytes as they stand in the text, and their offset.
    Token {
        /// The bytes.
        text: &'a [u8],
        /// Where they begin.
        offset: u32,
    },
    /// The text has no more tokens.
    End,
    /// The offset of the first byte that may stand in no text.
    Bad(u32),
}

/// Gives the tokens of a text in order, as slices of it. It takes no memory.
#[derive(Drop)]
pub struct Lexer<'a> {
    text: &'a [u8],
    at: usize,
}

impl<'a> Model for Lexer<'a> {
    ghost use Rattle.std.specs.Prelude.{◌≤◌, length};
    ghost use Rattle.p3_base.specs.declared.refusal.Side.TheVariants.{Written};
    ghost use Rattle.p3_task.specs.Sides.{byte_limit};
    ghost use Rattle.p3_lexer.specs.Lexing.{Progress, progress_code};

    ghost Value = { Progress };

    ghost coded = { progress_code };

    ghost view = { λ lexer. record { source = lexer.text.now; at = lexer.at } };

    ghost invariant = { λ lexer. (lexer.at ≤ length lexer.text.now)
        × (length lexer.text.now ≤ byte_limit Written) };
}

impl<'a> Lexer<'a> {
    /// Begins at the start of the text.
    pub fn new(text: &'a [u8]) -> Lexer<'a>
        requires short { length text.now ≤ byte_limit Written }
        ensures starts { result ≡ record { source = text.now; at = 0 } }
    {
        Lexer { text, at: 0 }
    }

    /// The next token. At the end, and at a foreign byte, each further call answers the same.
    #[expect(clippy::should_implement_trait)]
    pub fn next(&mut self) -> Next<'a>
        ensures source { self.new.source ≡ self.old.source }
        // What is given and what is left make up what was left before.
        ensures tokens { left self.old ≡ with_next result (left self.new) }
        // A token is the slice of the text at its offset, with blanks and comments alone before it.
        ensures slice { Takes self.old result self.new }
        // After the last token nothing changes.
        ensures rests { Rests self.old result self.new }
    {
        let (next, at) = next_from(self.text, self.at);
        self.at = at;
        next
    }

    /// Gives the next word. Where a parenthesis, the end or a foreign byte comes next it passes that,
    /// and gives none.
    pub fn next_word(&mut self) -> Option<&'a [u8]>
        ensures source { self.new.source ≡ self.old.source }
        ensures word { IsNextWord self.old result self.new }
        ensures slice { IfSome result (λ word. IsPartOf self.old.source word.now) }
    {
        let Next::Token { text, .. } = self.next() else {
            return None;
        };
        if is_open(text) || is_close(text) {
            None
        } else {
            Some(text)
        }
    }
}

/// Whether a token is `(`.
pub fn is_open(token: &[u8]) -> bool
    ensures { result ≡ bytes_eq token.now (codes "(") }
{
    matches!(token, [b'('])
}

/// Whether a token is `)`.
pub fn is_close(token: &[u8]) -> bool
    ensures { result ≡ bytes_eq token.now (codes ")") }
{
    matches!(token, [b')'])
}

/// The next token from a place on, and the place behind it.
fn next_from(text: &[u8], at: usize) -> (Next<'_>, usize)
    requires within { at ≤ length text.now }
    requires short { length text.now ≤ byte_limit Written }
    ensures within { result.1 ≤ length text.now }
    ensures tokens { tokens_from false at (drop at text.now)
        ≡ with_next result.0 (tokens_from false result.1 (drop result.1 text.now)) }
    ensures slice { Takes (record { source = text.now; at = at }) result.0
        (record { source = text.now; at = result.1 }) }
    ensures rests { Rests (record { source = text.now; at = at }) result.0
        (record { source = text.now; at = result.1 }) }
{
    let place = gap_end(text, at);
    if place == text.len() {
        return (Next::End, place);
    }
    let end = token_end(text, place);
    let offset = place as u32;
    if end == place {
        (Next::Bad(offset), place)
    } else {
        (
            Next::Token {
                text: &text[place..end],
                offset,
            },
            end,
        )
    }
}

/// The place behind the token that stands at a place, which is the place itself where none does.
fn token_end(text: &[u8], place: usize) -> usize
    requires within { place < length text.now }
    ensures end { result ≡ place + token_len (drop place text.now) }
    ensures within { result ≤ length text.now }
{
    if text[place] == b'(' || text[place] == b')' {
        place + 1
    } else {
        word_end(text, place)
    }
}
