//! Refusals with their place and what is shown of the word at fault.

ghost use Rattle.std.specs.Prelude.{◌≡◌, ◌<◌, ◌≤◌, drop, false, length, take};
ghost use Rattle.std.specs.Fmt.{digit_glyph};
ghost use Rattle.std.specs.Str.{str_to_ascii_lowercase};
ghost use Rattle.p3_base.specs.Place.{line_of, column_of};
ghost use Rattle.p3_base.specs.declared.refusal.Side.TheVariants.{Written};
ghost use Rattle.p3_tree.specs.Reports.Refusals.{shown_at_fault, shown_byte, shown_word};
ghost use Rattle.p3_task.specs.Sides.{byte_limit};

use arrayvec::ArrayVec;
use p3_base::{Code, Refusal, Role, line_column};

/// The most bytes of a word that are shown.
const WORD_MAX: usize = 60;

/// A refusal of a text with all that its line says, so that the text is no longer needed.
#[derive(Debug, Drop)]
pub struct PlacedRefusal {
    pub(crate) code: Code,
    pub(crate) role: Role,
    pub(crate) row: u32,
    pub(crate) column: u32,
    pub(crate) shown: ArrayVec<u8, WORD_MAX>,
}

impl PlacedRefusal {
    ghost use Rattle.p3_reports.specs.Rejections.{placed_in};

    /// Finds the place of a refusal in its text, and what is shown of the word at fault.
    pub fn of(refusal: &Refusal, text: &[u8]) -> PlacedRefusal
        requires { length text.now ≤ byte_limit Written }
        ensures { result ≡ placed_in text.now refusal.now }
    {
        let (row, column) = place_of(text, refusal.pos.offset);
        PlacedRefusal::at(refusal, text, row, column)
    }

    /// Gives a refusal of a text at its line and column, which are known, and what is shown of the
    /// word at fault. It takes no longer in a longer text.
    pub fn at(refusal: &Refusal, text: &[u8], row: u32, column: u32) -> PlacedRefusal
        requires row { row ≡ line_of text.now refusal.now.pos.offset }
        requires column { column ≡ column_of text.now refusal.now.pos.offset }
        ensures { result ≡ placed_in text.now refusal.now }
    {
        PlacedRefusal {
            code: refusal.code,
            role: refusal.pos.role,
            row,
            column,
            shown: at_fault(text, refusal),
        }
    }
}

/// Finds the line and column of an offset, or of the text's end where that comes first.
#[tactic(auto, using(std::proofs::lemmas::List::take_all))]
fn place_of(text: &[u8], offset: u32) -> (u32, u32)
    requires { length text.now ≤ byte_limit Written }
    ensures line { result.0 ≡ line_of text.now offset }
    ensures column { result.1 ≡ column_of text.now offset }
{
    if offset as usize <= text.len() {
        line_column(text, offset)
    } else {
        line_column(text, text.len() as u32)
    }
}

/// Gives what is shown of the word or byte at fault.
fn at_fault(text: &[u8], refusal: &Refusal) -> ArrayVec<u8, WORD_MAX>
    ensures { result.items ≡ shown_at_fault refusal.now.code text.now refusal.now }
{
    match refusal.code {
        Code::BadByte => {
            let byte = text.get(refusal.pos.offset as usize).copied().unwrap_or(0);
            byte_digits(byte)
        }
        _ => word_at_fault(text, refusal),
    }
}

/// Shows a foreign byte, by two hexadecimal digits.
fn byte_digits(byte: u8) -> ArrayVec<u8, WORD_MAX>
    ensures { result.items ≡ shown_byte byte }
{
    let mut shown = lowered(b"byte ");
    shown.push(digit(byte / 16));
    shown.push(digit(byte % 16));
    shown
}

/// Gives a hexadecimal digit.
fn digit(number: u8) -> u8
    requires { number < 16 }
    ensures { result ≡ digit_glyph false number }
{
    if number < 10 {
        b'0' + number
    } else {
        b'a' + (number - 10)
    }
}

/// Shows the word at fault.
fn word_at_fault(text: &[u8], refusal: &Refusal) -> ArrayVec<u8, WORD_MAX>
    ensures { result.items ≡ shown_word text.now refusal.now }
{
    if refusal.len == 0 {
        return lowered(b"end of text");
    }
    let word = first(
        refusal.len as usize,
        behind(refusal.pos.offset as usize, text),
    );
    lowered(first(WORD_MAX, word))
}

/// Copies a short word, with its letters lowered.
fn lowered(word: &[u8]) -> ArrayVec<u8, WORD_MAX>
    requires { length word.now ≤ 60 }
    ensures { result.items ≡ str_to_ascii_lowercase word.now }
{
    let mut shown = ArrayVec::new();
    for byte in word {
        shown.push(byte.to_ascii_lowercase());
    }
    shown
}

/// Gives the bytes from an offset on; none where the text ends before it.
#[tactic(auto, using(std::proofs::lemmas::List::drop_all))]
fn behind(offset: usize, text: &[u8]) -> &[u8]
    ensures { result.now ≡ drop offset text.now }
{
    if offset <= text.len() {
        &text[offset..]
    } else {
        &[]
    }
}

/// Gives at most the first `len` bytes.
fn first(len: usize, bytes: &[u8]) -> &[u8]
    ensures bytes { result.now ≡ take len bytes.now }
    ensures short { length result.now ≤ len }
{
    &bytes[..len.min(bytes.len())]
}
