//! Names, numbered in the order in which they were first seen.

ghost use Rattle.std.specs.Prelude.{◌≡◌, [], ◌∷◌, length, position, OnOk, OnErr, IfOk};
ghost use Rattle.std.specs.List.{position_or_len};
ghost use Rattle.p3_task.specs.Names.{same_name, has_name};
ghost use Rattle.p3_numbers.specs.Names.{Adds, with_name};

use crate::Key;
use indexmap::IndexSet;
use p3_base::{Name, NoMemory};
use std::alloc::Global;
use std::marker::Model;

/// Names, each once, in the order in which they were first seen. A name's number is its place.
#[derive(Drop)]
pub struct Names {
    keys: IndexSet<Vec<u8>, Key>,
}

impl Model for Names {
    ghost use Rattle.std.specs.Prelude.{List, ℕ, map};

    ghost Value = { List (List ℕ) };

    ghost view = { λ names. map (λ key. key.items) names.keys.keys };
}

impl Names {
    /// No name. The key is made of all that may be added.
    pub fn new(alloc: Global, key: Key) -> Names
        ensures { result ≡ [] }
    {
        Names {
            keys: IndexSet::with_hasher(alloc, key),
        }
    }

    /// How many names there are.
    pub fn len(&self) -> usize
        ensures { result ≡ length self.now }
    {
        self.keys.len()
    }

    /// Whether the name is there.
    pub fn has(&self, name: &[u8]) -> bool
        ensures { result ≡ has_name self.now name.now }
    {
        self.keys.contains(name)
    }

    /// The number of the name.
    pub fn number_of(&self, name: &Name) -> Option<usize>
        ensures { result ≡ position (λ other. same_name other name.now) self.now }
    {
        self.keys.get_index_of(name.bytes())
    }

    /// The number of the name, which goes last if it is new.
    pub fn add(&mut self, alloc: Global, name: &Name) -> Result<usize, NoMemory>
        ensures names { OnOk result (self.new ≡ with_name self.old name.now) }
        ensures number { IfOk result
            (λ number. number ≡ position_or_len (λ other. same_name other name.now) self.old) }
        ensures more { OnOk result (Adds self.old (name.now ∷ []) self.new) }
        ensures err { OnErr result (self.new ≡ self.old) }
    {
        let key = Vec::from_slice(alloc, name.bytes())?;
        let (number, _) = self.keys.insert_full(key)?;
        Ok(number)
    }
}
