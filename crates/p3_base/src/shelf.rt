//! Names with the bytes that they hold, in memory.

ghost use Rattle.std.specs.Prelude.{◌≡◌, ◌≤◌, ◌↔◌, [], Some, None, length, OnOk, OnErr, IsErrOf, IsNone};
ghost use Rattle.std.specs.Option.{option_copied};
ghost use Rattle.std.specs.FinMap as map;
ghost use Rattle.p3_base.specs.Outside.{bytes_under, BeginsHeld, IsTooLong};

use crate::{NoMemory, ReadFault, Word};
use std::alloc::Global;
use std::collections::BTreeMap;
use std::marker::Model;

/// A finite map from names to bytes.
#[derive(Drop)]
pub(crate) struct Shelf {
    names: BTreeMap<Vec<u8>, Vec<u8>>,
}

impl Model for Shelf {
    ghost use Rattle.std.specs.Prelude.{ℕ};
    ghost use Rattle.std.specs.Coded.{coded_ℕ, coded_list};
    ghost use Rattle.std.specs.FinMap as map;
    ghost use Rattle.p3_base.specs.Outside.{Store, listed};

    ghost Value = { Store };

    ghost coded = { map.code (coded_list coded_ℕ) (coded_list coded_ℕ) };

    ghost view = { λ shelf. map.from_entries (listed shelf.names.entries) };
}

impl Shelf {
    /// No name holds anything.
    pub(crate) fn new(alloc: Global) -> Shelf
        ensures { result ≡ map.empty }
    {
        Shelf {
            names: BTreeMap::new(alloc),
        }
    }

    /// The bytes under a name.
    pub(crate) fn bytes(&self, name: &Word) -> Option<&[u8]>
        ensures { option_copied result ≡ bytes_under self.now name.now }
    {
        match self.names.get(name.bytes()) {
            Some(bytes) => Some(bytes.as_slice()),
            None => None,
        }
    }

    /// Reads the bytes under a name, at most `limit` of them. It fails where the name is not held.
    pub(crate) fn read(&self, name: &Word, limit: u32, into: &mut Vec<u8>) -> Result<(), ReadFault>
        ensures ok { OnOk result (bytes_under self.now name.now ≡ Some into.new.items) }
        ensures within_limit { OnOk result (length into.new.items ≤ limit) }
        ensures too_long { IsErrOf result ReadFault.TooLong
            → IsTooLong (Some self.now) name.now limit into.new.items }
        ensures absent { IsErrOf result ReadFault.Failed ↔ IsNone (bytes_under self.now name.now) }
        ensures prefix { OnErr result (BeginsHeld (Some self.now) name.now into.new.items) }
    {
        into.clear();
        let Some(bytes) = self.bytes(name) else {
            return Err(ReadFault::Failed);
        };
        let limit = limit as usize;
        if bytes.len() <= limit {
            copied(bytes, into)
        } else {
            copied(&bytes[..limit + 1], into)?;
            Err(ReadFault::TooLong)
        }
    }

    /// Puts bytes under a name, in the place of what it held.
    pub(crate) fn hold(&mut self, name: Word, bytes: Vec<u8>) -> Result<(), NoMemory>
        ensures ok { OnOk result (self.new ≡ map.insert self.old name bytes.items) }
        ensures err { OnErr result (self.new ≡ self.old) }
    {
        self.names.insert(name.into_bytes(), bytes)?;
        Ok(())
    }

    /// Puts a copy of the bytes under a name.
    pub(crate) fn copy(&mut self, alloc: Global, name: &Word, bytes: &[u8]) -> Result<(), NoMemory>
        ensures ok { OnOk result (self.new ≡ map.insert self.old name.now bytes.now) }
        ensures err { OnErr result (self.new ≡ self.old) }
    {
        let bytes = Vec::from_slice(alloc, bytes)?;
        self.hold(Word::of(alloc, name.bytes())?, bytes)
    }
}

/// Puts the bytes into an empty vector.
fn copied(bytes: &[u8], into: &mut Vec<u8>) -> Result<(), ReadFault>
    requires { into.old.items ≡ [] }
    ensures ok { OnOk result (into.new.items ≡ bytes.now) }
    ensures err { OnErr result (into.new.items ≡ []) }
    ensures only { OnErr result (IsErrOf result ReadFault.NoMemory) }
{
    match into.extend_from_slice(bytes) {
        Ok(()) => Ok(()),
        Err(_) => Err(ReadFault::NoMemory),
    }
}
