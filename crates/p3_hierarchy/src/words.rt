//! Words of a task, each once, which are not copied.

ghost use Rattle.std.specs.Prelude.{◌≡◌, ◌<◌, [], Some, length, map, slice_get, OnOk};
ghost use Rattle.p3_task.specs.Names.{has_name};
ghost use Rattle.p3_numbers.specs.Names.{with_name, with_names};
ghost use Rattle.p3_hierarchy.specs.Walks.{place_of};

use indexmap::IndexSet;
use p3_base::NoMemory;
use p3_numbers::Key;
use std::alloc::Global;
use std::marker::Model;

/// Words, each once, in the order in which they were first seen.
#[derive(Drop)]
pub(crate) struct Words<'t> {
    keys: IndexSet<&'t [u8], Key>,
}

impl<'t> Model for Words<'t> {
    ghost use Rattle.std.specs.Prelude.{List, ℕ, map};

    ghost Value = { List (List ℕ) };

    ghost view = { λ words. map (λ key. key.now) words.keys.keys };
}

impl<'t> Words<'t> {
    /// No word. The key is made of all that may be added.
    pub(crate) fn new(alloc: Global, key: Key) -> Words<'t>
        ensures { result ≡ [] }
    {
        Words {
            keys: IndexSet::with_hasher(alloc, key),
        }
    }

    /// How many words there are.
    pub(crate) fn len(&self) -> usize
        ensures { result ≡ length self.now }
    {
        self.keys.len()
    }

    /// Whether the word is there.
    pub(crate) fn has(&self, word: &[u8]) -> bool
        ensures { result ≡ has_name self.now word.now }
    {
        self.keys.contains(word)
    }

    /// The word at a place.
    pub(crate) fn at(&self, place: usize) -> &'t [u8]
        requires { place < length self.now }
        ensures { slice_get self.now place ≡ Some result.now }
    {
        self.keys.as_slice()[place]
    }

    /// The place of a word, which is their number where it has none.
    pub(crate) fn place(&self, word: &[u8]) -> usize
        ensures { result ≡ place_of self.now word.now }
    {
        match self.keys.get_index_of(word) {
            None => self.len(),
            Some(place) => place,
        }
    }

    /// The word goes last if it is new.
    pub(crate) fn add(&mut self, word: &'t [u8]) -> Result<(), NoMemory>
        ensures { OnOk result (self.new ≡ with_name self.old word.now) }
    {
        self.keys.insert_full(word)?;
        Ok(())
    }

    /// The words go last, as far as they are new.
    pub(crate) fn extend(&mut self, words: &[&'t [u8]]) -> Result<(), NoMemory>
        ensures { OnOk result (self.new ≡ with_names self.old (map (λ word. word.now) words.now)) }
    {
        for word in words {
            self.add(word)?;
        }
        Ok(())
    }
}
