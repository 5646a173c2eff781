//! Texts that are put together of pieces, and texts with names.

use crate::flaw::Flaw;
use crate::quoted::{first_number, first_word, quoted, two_quoted};
use p3_base::NoMemory;
use std::alloc::Global;

/// A text with its name.
#[derive(Drop)]
pub(crate) struct Named {
    pub(crate) name: String,
    pub(crate) bytes: Vec<u8>,
}

/// Texts by their names.
#[derive(Drop)]
pub(crate) struct Texts {
    all: Vec<Named>,
}

impl Texts {
    /// No text.
    pub(crate) fn new(alloc: Global) -> Texts {
        Texts {
            all: Vec::new(alloc),
        }
    }

    /// Adds a text.
    pub(crate) fn add(&mut self, text: Named) -> Result<(), NoMemory> {
        self.all.push(text)?;
        Ok(())
    }

    /// The bytes of a text.
    pub(crate) fn bytes(&self, name: &str) -> Option<&[u8]> {
        for text in &self.all {
            if text.name.as_str() == name {
                return Some(text.bytes.as_slice());
            }
        }
        None
    }
}

/// The texts that a piece may name: those of its file of rows, and those of the folder.
#[derive(Clone, Copy)]
pub(crate) struct Known<'t> {
    pub(crate) own: &'t Texts,
    pub(crate) folder: &'t Texts,
}

impl<'t> Known<'t> {
    /// The bytes of a text.
    fn bytes(&self, name: &str) -> Option<&'t [u8]> {
        match self.own.bytes(name) {
            Some(bytes) => Some(bytes),
            None => self.folder.bytes(name),
        }
    }
}

/// Whether a line is a piece of the text that the line above began.
pub(crate) fn is_piece(line: &str) -> bool {
    let (word, _) = first_word(line);
    let is_named = word == "times" || word == "numbers" || word == "text" || word == "replacing";
    is_named || line.starts_with('|') || line.starts_with('"')
}

/// Adds a piece to a text.
pub(crate) fn add_piece(
    alloc: Global,
    line: &str,
    known: Known<'_>,
    text: &mut Vec<u8>,
) -> Result<(), Flaw> {
    let (word, rest) = first_word(line);
    if line.starts_with('"') {
        text.extend_from_slice(quoted(alloc, line)?.as_slice())?;
        return Ok(());
    }
    match word {
        "|" => add_line(line, text),
        "times" => add_times(alloc, rest, text),
        "numbers" => add_numbered(alloc, rest, text),
        "text" => add_named(rest, known, text),
        "replacing" => replace(alloc, rest, text),
        _ => Err(Flaw::Told("a blank is wanted behind |")),
    }
}

/// Adds what stands behind `| `, and a line feed.
fn add_line(line: &str, text: &mut Vec<u8>) -> Result<(), Flaw> {
    if let Some(bytes) = line.strip_prefix("| ") {
        text.extend_from_slice(bytes.as_bytes())?;
    }
    text.push(b'\n')?;
    Ok(())
}

/// Adds one piece many times.
fn add_times(alloc: Global, rest: &str, text: &mut Vec<u8>) -> Result<(), Flaw> {
    let (count, rest) = first_number(rest)?;
    let piece = quoted(alloc, rest)?;
    for _ in 0..count {
        text.extend_from_slice(piece.as_slice())?;
    }
    Ok(())
}

/// Adds one piece for each number from one to another, which stands in the place of `#`.
fn add_numbered(alloc: Global, rest: &str, text: &mut Vec<u8>) -> Result<(), Flaw> {
    let (from, rest) = first_number(rest)?;
    let (word, rest) = first_word(rest);
    if word != "to" {
        return Err(Flaw::Told("`to` is wanted behind the first number"));
    }
    let (to, rest) = first_number(rest)?;
    let Some((before, behind)) = rest.split_once('#') else {
        return Err(Flaw::Told("a piece with # is wanted"));
    };
    for number in from..=to {
        let piece = format!(in alloc; "{before}{number}{behind}")?;
        text.extend_from_slice(quoted(alloc, piece.as_str())?.as_slice())?;
    }
    Ok(())
}

/// Adds a text that has a name.
fn add_named(name: &str, known: Known<'_>, text: &mut Vec<u8>) -> Result<(), Flaw> {
    match known.bytes(name) {
        Some(bytes) => {
            text.extend_from_slice(bytes)?;
            Ok(())
        }
        None => Err(Flaw::Told("no text above and no file has this name")),
    }
}

/// Puts a second piece in the place of a first, which stands in the text exactly once.
fn replace(alloc: Global, rest: &str, text: &mut Vec<u8>) -> Result<(), Flaw> {
    let (old, new) = two_quoted(alloc, rest)?;
    let changed = replaced(alloc, text.as_slice(), old.as_slice(), new.as_slice())?;
    *text = changed;
    Ok(())
}

/// The text with a new part in the place of an old one.
fn replaced(alloc: Global, text: &[u8], old: &[u8], new: &[u8]) -> Result<Vec<u8>, Flaw> {
    let Some((before, behind)) = around(text, old) else {
        return Err(Flaw::Told("the part to be replaced does not stand in the text"));
    };
    if around(behind, old).is_some() {
        return Err(Flaw::Told("the part to be replaced stands in the text twice"));
    }
    let mut changed = Vec::from_slice(alloc, before)?;
    changed.extend_from_slice(new)?;
    changed.extend_from_slice(behind)?;
    Ok(changed)
}

/// What stands before and behind the first place of a part.
fn around<'t>(text: &'t [u8], part: &[u8]) -> Option<(&'t [u8], &'t [u8])> {
    for at in 0..text.len() {
        let (before, from) = text.split_at(at);
        if let Some(behind) = from.strip_prefix(part) {
            return Some((before, behind));
        }
    }
    None
}
