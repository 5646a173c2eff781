//! Quoted pieces of text, and words of a line.

use crate::flaw::Flaw;
use p3_base::Word;
use std::alloc::Global;

/// The first word of a text, and what stands behind it and the blanks there.
pub(crate) fn first_word(text: &str) -> (&str, &str) {
    match text.split_once(' ') {
        Some((word, behind)) => (word, behind.trim_start()),
        None => (text, ""),
    }
}

/// The first word of a text as a number, and what stands behind it.
pub(crate) fn first_number(text: &str) -> Result<(u32, &str), Flaw> {
    let (word, behind) = first_word(text);
    match word.parse::<u32>() {
        Ok(number) => Ok((number, behind)),
        Err(_) => Err(Flaw::Told("a number is wanted")),
    }
}

/// A word of the command line: `""` stands for the word without bytes.
pub(crate) fn word_of(alloc: Global, text: &str) -> Result<Word, Flaw> {
    let bytes = if text == "\"\"" {
        b"".as_slice()
    } else {
        text.as_bytes()
    };
    Ok(Word::of(alloc, bytes)?)
}

/// The words of a command line.
pub(crate) fn words_of(alloc: Global, text: &str) -> Result<Vec<Word>, Flaw> {
    let mut words = Vec::new(alloc);
    for word in text.split_whitespace() {
        words.push(word_of(alloc, word)?)?;
    }
    Ok(words)
}

/// The bytes of one quoted piece, behind which nothing stands.
pub(crate) fn quoted(alloc: Global, text: &str) -> Result<Vec<u8>, Flaw> {
    let (bytes, behind) = first_quoted(alloc, text.as_bytes())?;
    if behind.is_empty() {
        Ok(bytes)
    } else {
        Err(Flaw::Told("something stands behind a quoted piece"))
    }
}

/// The bytes of two quoted pieces, behind which nothing stands.
pub(crate) fn two_quoted(alloc: Global, text: &str) -> Result<(Vec<u8>, Vec<u8>), Flaw> {
    let (first, behind) = first_quoted(alloc, text.as_bytes())?;
    let (second, end) = first_quoted(alloc, behind.trim_ascii_start())?;
    if end.is_empty() {
        Ok((first, second))
    } else {
        Err(Flaw::Told("something stands behind two quoted pieces"))
    }
}

/// The bytes of the quoted piece that begins a text, and what stands behind it.
fn first_quoted(alloc: Global, text: &[u8]) -> Result<(Vec<u8>, &[u8]), Flaw> {
    let Some(mut rest) = text.strip_prefix(b"\"".as_slice()) else {
        return Err(Flaw::Told("a quoted piece is wanted"));
    };
    let mut bytes = Vec::new(alloc);
    for _ in 0..text.len() {
        if let Some(behind) = rest.strip_prefix(b"\"".as_slice()) {
            return Ok((bytes, behind));
        }
        let (byte, behind) = first_byte(rest)?;
        bytes.push(byte)?;
        rest = behind;
    }
    Err(Flaw::Told("a quoted piece has no end"))
}

/// The byte for which the first bytes stand, and what stands behind them.
fn first_byte(text: &[u8]) -> Result<(u8, &[u8]), Flaw> {
    match text {
        [b'\\', b'n', behind @ ..] => Ok((b'\n', behind)),
        [b'\\', b't', behind @ ..] => Ok((b'\t', behind)),
        [b'\\', b'"', behind @ ..] => Ok((b'"', behind)),
        [b'\\', b'\\', behind @ ..] => Ok((b'\\', behind)),
        [b'\\', b'x', high, low, behind @ ..] => Ok((digits(*high, *low)?, behind)),
        [b'\\', ..] => Err(Flaw::Told(
            "behind \\ only n, t, x with two digits, \" and \\ may stand",
        )),
        [byte, behind @ ..] => Ok((*byte, behind)),
        [] => Err(Flaw::Told("a quoted piece has no end")),
    }
}

/// The byte that two hexadecimal digits spell.
fn digits(high: u8, low: u8) -> Result<u8, Flaw> {
    Ok(digit(high)? << 4 | digit(low)?)
}

/// The value of a hexadecimal digit.
fn digit(byte: u8) -> Result<u8, Flaw> {
    match byte {
        b'0'..=b'9' => Ok(byte - b'0'),
        b'a'..=b'f' => Ok(byte - b'a' + 10),
        _ => Err(Flaw::Told("behind \\x two digits from 0 to f are wanted")),
    }
}
