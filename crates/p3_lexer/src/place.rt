//! Where tokens begin and end in a text.

ghost use Rattle.std.specs.Prelude.{◌≡◌, ◌≤◌, ◌<◌, ◌+◌, drop, length, slice_index, true, false};
ghost use Rattle.std.specs.List.{prefix_len};
ghost use Rattle.p3_task.specs.Tokens.{is_blank, is_of_word};
ghost use Rattle.p3_lexer.specs.Lexing.{is_between, gap_len};

fn is_blank_byte(byte: u8) -> bool
    ensures { result ≡ is_blank byte }
{
    byte == b' ' || (b'\t'..=b'\r').contains(&byte)
}

fn is_word_byte(byte: u8) -> bool
    ensures { result ≡ is_of_word byte }
{
    matches!(byte, b'<'..=b'~' | b'*'..=b':' | b'!'..=b'\'')
}

/// The place behind the comment that is open at a place.
fn comment_end(text: &[u8], at: usize) -> usize
    requires within { at ≤ length text.now }
    ensures end { result + gap_len false (drop result text.now)
        ≡ at + gap_len true (drop at text.now) }
    ensures within { result ≤ length text.now }
    ensures further { at ≤ result }
{
    for place in at..text.len() {
        if text[place] == b'\n' {
            return place + 1;
        }
    }
    text.len()
}

/// The place behind the blanks and comments that stand from a place on.
pub(crate) fn gap_end(text: &[u8], at: usize) -> usize
    requires within { at ≤ length text.now }
    ensures end { result ≡ at + gap_len false (drop at text.now) }
    ensures within { result ≤ length text.now }
    ensures stands { result < length text.now → is_between (slice_index text.now result) ≡ false }
{
    let mut place = at;
    while place < text.len() {
        if is_blank_byte(text[place]) {
            place += 1;
        } else if text[place] == b';' {
            place = comment_end(text, place + 1);
        } else {
            return place;
        }
    }
    place
}

/// The place behind the bytes of words that stand from a place on.
pub(crate) fn word_end(text: &[u8], at: usize) -> usize
    requires within { at ≤ length text.now }
    ensures end { result ≡ at + prefix_len is_of_word (drop at text.now) }
    ensures within { result ≤ length text.now }
{
    for place in at..text.len() {
        if !is_word_byte(text[place]) {
            return place;
        }
    }
    text.len()
}
