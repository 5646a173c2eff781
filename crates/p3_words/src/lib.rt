//! The words of the command line, as bytes.
#![tactic(auto)]

#[cfg(test)]
mod tests;

use p3_base::{NoMemory, Word};
use std::alloc::Global;
use std::env::{Env, FillError};

/// How many bytes a word may have before its buffer grows.
const ROOM: usize = 4096;

/// Gives the words behind the program's name, in order.
///
/// # Errors
///
/// Want of memory.
pub fn given_words(env: &impl Env, alloc: Global) -> Result<Vec<Word>, NoMemory> {
    let mut words = Vec::new(alloc);
    for place in 1..usize::MAX {
        match word_at(env, alloc, place)? {
            Some(word) => words.push(word)?,
            None => break,
        }
    }
    Ok(words)
}

/// Gives the word at a place of the command line. Its buffer is doubled until the word fits.
fn word_at(env: &impl Env, alloc: Global, place: usize) -> Result<Option<Word>, NoMemory> {
    let mut room = ROOM;
    for _ in 0..usize::BITS {
        let mut buffer = Vec::from_elem(alloc, 0u8, room)?;
        match env.arg(place, buffer.as_mut_slice()) {
            Ok(len) => return Ok(Some(Word::of(alloc, &buffer[..len])?)),
            Err(FillError::NotPresent) => return Ok(None),
            Err(FillError::TooLong) => room = room.saturating_mul(2),
        }
    }
    Err(NoMemory)
}
