//! Which words are given, by command lines that stand in no process.

use crate::{ROOM, given_words};
use p3_base::Word;
use std::env::{Env, FillError};
use std::test::Fail;

/// A command line: the name of the program, and the words behind it.
#[derive(Drop)]
struct Line<'w> {
    words: &'w [&'w [u8]],
}

impl Env for Line<'_> {
    fn arg(&self, i: usize, buf: &mut [u8]) -> Result<usize, FillError> {
        let Some(word) = self.words.get(i) else {
            return Err(FillError::NotPresent);
        };
        let len = word.len();
        if len > buf.len() {
            return Err(FillError::TooLong);
        }
        buf[..len].copy_from_slice(word);
        Ok(len)
    }

    fn var(&self, _name: &str, _buf: &mut [u8]) -> Result<usize, FillError> {
        Err(FillError::NotPresent)
    }

    fn var_at(&self, _i: usize, _buf: &mut [u8]) -> Result<usize, FillError> {
        Err(FillError::NotPresent)
    }
}

/// Tells whether words have these bytes, in order.
fn spell(words: &[Word], texts: &[&[u8]]) -> bool {
    if words.len() != texts.len() {
        return false;
    }
    for place in 0..words.len() {
        if words[place].bytes() != texts[place] {
            return false;
        }
    }
    true
}

#[test]
fn words_are_given_behind_the_name(rt: HostRuntime) -> Result<(), Fail> {
    let (name, first, second) = (b"p".as_slice(), b"a b".as_slice(), b"\xff".as_slice());
    let line = Line {
        words: &[name, first, second],
    };
    let words = given_words(&line, rt.alloc())?;
    assert!(rt; spell(words.as_slice(), &[first, second]));
    Ok(())
}

#[test]
fn no_word_is_given_behind_the_name_alone(rt: HostRuntime) -> Result<(), Fail> {
    let name = b"p".as_slice();
    let words = given_words(&Line { words: &[name] }, rt.alloc())?;
    assert!(rt; spell(words.as_slice(), &[]));
    let words = given_words(&Line { words: &[] }, rt.alloc())?;
    assert!(rt; spell(words.as_slice(), &[]));
    Ok(())
}

#[test]
fn an_empty_word_is_given_as_it_is(rt: HostRuntime) -> Result<(), Fail> {
    let (name, empty, last) = (b"p".as_slice(), b"".as_slice(), b"x".as_slice());
    let line = Line {
        words: &[name, empty, last, empty],
    };
    let words = given_words(&line, rt.alloc())?;
    assert!(rt; spell(words.as_slice(), &[empty, last, empty]));
    Ok(())
}

#[test]
fn a_word_longer_than_its_buffer_is_given_whole(rt: HostRuntime) -> Result<(), Fail> {
    let (name, last) = (b"p".as_slice(), b"x".as_slice());
    let (whole, long, longer) = ([b'w'; ROOM], [b'l'; ROOM + 1], [b'm'; 4 * ROOM + 1]);
    let (whole, long, longer) = (whole.as_slice(), long.as_slice(), longer.as_slice());
    let line = Line {
        words: &[name, whole, long, longer, last],
    };
    let words = given_words(&line, rt.alloc())?;
    assert!(rt; spell(words.as_slice(), &[whole, long, longer, last]));
    Ok(())
}
