//! Ground atoms by number.

ghost use Rattle.std.specs.Prelude.{◌≡◌, ◌<◌, ◌≤◌, [], length, slice_get, Some, OnOk, OnErr, IfOk, IfSome, IfNone, bytes_eq};
ghost use Rattle.std.specs.List.{list_any};
ghost use Rattle.p3_expansion.specs.Atoms.{AreDistinct, with_atom};

use crate::hashing::AtomHashing;
use indexmap::IndexSet;
use p3_base::NoMemory;
use std::alloc::Global;
use std::marker::Model;

/// Ground atoms, numbered in the order in which they were first seen. An atom is the number of its
/// predicate and then the numbers of its objects.
#[derive(Drop)]
pub struct Atoms {
    words: IndexSet<Vec<u32>, AtomHashing>,
}

impl Model for Atoms {
    ghost use Rattle.std.specs.Prelude.{List, ℕ, map};
    ghost use Rattle.indexmap.specs.IndexSet.{keys};

    ghost Value = { List (List ℕ) };

    ghost view = { λ atoms. map (λ words. words.items) atoms.words.keys };
}

impl Atoms {
    /// No atom.
    pub fn new(alloc: Global) -> Atoms
        ensures { result ≡ [] }
    {
        Atoms {
            words: IndexSet::with_hasher(alloc, AtomHashing),
        }
    }

    /// How many atoms there are. No two are equal.
    pub fn len(&self) -> usize
        ensures value { result ≡ length self.now }
        ensures distinct { AreDistinct self.now }
    {
        self.words.len()
    }

    /// Whether the atom has a number.
    pub fn has(&self, atom: &[u32]) -> bool
        ensures { result ≡ list_any (bytes_eq atom.now) self.now }
    {
        self.words.contains(atom)
    }

    /// The atom of the number.
    pub fn get(&self, number: usize) -> Option<&[u32]>
        ensures stored { IfSome result (λ atom. slice_get self.now number ≡ Some atom.now) }
        ensures none { IfNone result (length self.now ≤ number) }
    {
        match self.words.get_index(number) {
            Some(atom) => Some(atom.as_slice()),
            None => None,
        }
    }

    /// The number of the atom, which goes last if it is new.
    pub fn number_of(&mut self, alloc: Global, atom: &[u32]) -> Result<usize, NoMemory>
        ensures atoms { OnOk result (self.new ≡ with_atom self.old atom.now) }
        ensures stored { IfOk result (λ number. slice_get self.new number ≡ Some atom.now) }
        ensures err { OnErr result (self.new ≡ self.old) }
    {
        if let Some(number) = self.words.get_index_of(atom) {
            return Ok(number);
        }
        self.insert(Vec::from_slice(alloc, atom)?)
    }

    /// The number of the atom, which goes last if it is new.
    fn insert(&mut self, atom: Vec<u32>) -> Result<usize, NoMemory>
        ensures atoms { OnOk result (self.new ≡ with_atom self.old atom.items) }
        ensures stored { IfOk result (λ number. slice_get self.new number ≡ Some atom.items) }
        ensures err { OnErr result (self.new ≡ self.old) }
    {
        let (number, _) = self.words.insert_full(atom)?;
        Ok(number)
    }
}
