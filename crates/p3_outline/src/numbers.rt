//! Numbers with too many digits.

ghost use Rattle.std.specs.Prelude.{◌≡◌, ◌≤◌, length};
ghost use Rattle.std.specs.List.{prefix_len};
ghost use Rattle.std.specs.Option.{option_or};
ghost use Rattle.std.specs.Str.{str_to_ascii_lowercase};
ghost use Rattle.p3_base.specs.declared.refusal.Code.TheVariants.{NumberTooLong};
ghost use Rattle.p3_base.specs.declared.refusal.Side.TheVariants.{Written};
ghost use Rattle.p3_task.specs.Decimals.{at_point};
ghost use Rattle.p3_task.specs.Refusals.Places.{refusal_at};
ghost use Rattle.p3_task.specs.Refusals.Texts.{is_too_long, long_number};
ghost use Rattle.p3_task.specs.Sides.{digit_limit, place_limit, byte_limit};
ghost use Rattle.p3_lexer.specs.Lexing.{token_of};
ghost use Rattle.p3_places.specs.Searches.{side_of};
ghost use Rattle.p3_outline.specs.Numbers.{is_no_point, the_parts, digit_count, has_places_above};

use p3_base::{Code, Pos, Refusal, Role};
use p3_lexer::{is_close, is_decimal, is_open};

/// How many digits a number may have; its point counts as none.
fn digit_limit(role: Role) -> usize
    ensures { result ≡ digit_limit (side_of role) }
{
    match role {
        Role::Domain | Role::Problem | Role::Plan => 15,
        Role::WrittenDomain | Role::WrittenProblem => 19,
    }
}

/// How many digits may stand behind a number's point; None where no number may have a point.
fn place_limit(role: Role) -> Option<usize>
    ensures { result ≡ place_limit (side_of role) }
{
    match role {
        Role::Domain | Role::Problem | Role::Plan => Some(6),
        Role::WrittenDomain | Role::WrittenProblem => None,
    }
}

/// The bytes of a word before its first point, and those behind it where it has one.
#[derive(Clone, Copy)]
struct AtPoint<'a> {
    front: &'a [u8],
    behind: Option<&'a [u8]>,
}

fn is_no_point(byte: u8) -> bool
    ensures { result ≡ is_no_point byte }
{
    byte != b'.'
}

/// How many bytes stand before a word's first point.
fn point_place(word: &[u8]) -> usize
    ensures place { result ≡ prefix_len is_no_point word.now }
    ensures within { result ≤ length word.now }
{
    for place in 0..word.len() {
        if !is_no_point(word[place]) {
            return place;
        }
    }
    word.len()
}

#[tactic(auto, using(crate::proofs::NumberLemmas::not_parted))]
fn at_point(word: &[u8]) -> AtPoint<'_>
    ensures parts { the_parts result ≡ at_point (str_to_ascii_lowercase word.now) }
    ensures within { digit_count (the_parts result) ≤ length word.now }
{
    let place = point_place(word);
    if place < word.len() {
        AtPoint {
            front: &word[..place],
            behind: Some(&word[place + 1..]),
        }
    } else {
        AtPoint {
            front: word,
            behind: None,
        }
    }
}

/// How many bytes stand before the point and behind it.
fn digit_count(parts: AtPoint<'_>) -> usize
    requires { digit_count (the_parts parts) ≤ usize.MAX }
    ensures { result ≡ digit_count (the_parts parts.entry) }
{
    match parts.behind {
        Some(behind) => parts.front.len() + behind.len(),
        None => parts.front.len(),
    }
}

/// Whether more bytes stand behind the point than may stand there, or a point where none may.
fn has_places_above(limit: Option<usize>, parts: AtPoint<'_>) -> bool
    ensures { result ≡ has_places_above limit (the_parts parts.entry).1 }
{
    match (limit, parts.behind) {
        (Some(limit), Some(behind)) => behind.len() > limit,
        (None, Some(_)) => true,
        (_, None) => false,
    }
}

/// Whether a word is a number with more digits than it may have, or a point where none may stand.
fn is_too_long(role: Role, word: &[u8]) -> bool
    ensures { result ≡ is_too_long (side_of role) (str_to_ascii_lowercase word.now) }
{
    if !is_decimal(word) {
        return false;
    }
    let parts = at_point(word);
    digit_count(parts) > digit_limit(role) || has_places_above(place_limit(role), parts)
}

/// The refusal of a token that is too long a number.
fn number_at(role: Role, offset: u32, text: &[u8]) -> Refusal
    requires short { length text.now ≤ byte_limit Written }
    ensures { result ≡ refusal_at NumberTooLong role offset (length text.now) }
{
    Refusal {
        code: Code::NumberTooLong,
        pos: Pos { role, offset },
        len: text.len() as u32,
    }
}

/// Notes a token that is a number too long, where none was noted before.
pub(crate) fn note_long_number(noted: &mut Option<Refusal>, role: Role, offset: u32, text: &[u8])
    requires short { length text.now ≤ byte_limit Written }
    ensures { noted.new
        ≡ option_or noted.old (long_number (side_of role) role (token_of offset text.now)) }
{
    if noted.is_none() && is_too_long(role, text) && !is_open(text) && !is_close(text) {
        *noted = Some(number_at(role, offset, text));
    }
}
