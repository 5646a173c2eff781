//! Files that never fail, and a sink that never fails.

ghost use Rattle.std.specs.Prelude.{◌≡◌, Some, None, true, OnOk, OnErr, refl};
ghost use Rattle.std.specs.Option.{option_copied};
ghost use Rattle.std.specs.FinMap as map;
ghost use Rattle.p3_base.specs.Outside.{bytes_under};

use crate::shelf::Shelf;
use crate::{Files, NoMemory, ReadFault, Sink, SinkFailed, Word, WriteFault};
use std::alloc::Global;
use std::marker::Model;

/// Files in memory that never fail. They are read only under names that they hold.
#[derive(Drop)]
pub struct SureFiles {
    shelf: Shelf,
}

impl Model for SureFiles {
    ghost use Rattle.std.specs.Coded.{coded_ℕ, coded_list};
    ghost use Rattle.std.specs.FinMap as map;
    ghost use Rattle.p3_base.specs.Outside.{Store};

    ghost Value = { Store };

    ghost coded = { map.code (coded_list coded_ℕ) (coded_list coded_ℕ) };

    ghost view = { λ files. files.shelf };
}

impl SureFiles {
    /// Holds nothing.
    pub fn new(alloc: Global) -> SureFiles
        ensures { result ≡ map.empty }
    {
        SureFiles {
            shelf: Shelf::new(alloc),
        }
    }

    /// Puts bytes under a name. After a refusal nothing has changed.
    pub fn hold(&mut self, name: Word, bytes: Vec<u8>) -> Result<(), NoMemory>
        ensures ok { OnOk result (self.new ≡ map.insert self.old name bytes.items) }
        ensures err { OnErr result (self.new ≡ self.old) }
    {
        self.shelf.hold(name, bytes)
    }

    /// What is held under a name.
    pub fn bytes(&self, name: &Word) -> Option<&[u8]>
        ensures { option_copied result ≡ bytes_under self.now name.now }
    {
        self.shelf.bytes(name)
    }
}

impl Files for SureFiles {
    ghost seen = { λ files. record {
      held = Some files;
      is_sure = true;
      read_faults = 0;
      write_faults = 0;
    } };

    fn read(
        &mut self,
        alloc: Global,
        name: &Word,
        limit: u32,
        into: &mut Vec<u8>,
    ) -> Result<(), ReadFault> {
        self.shelf.read(name, limit, into)
    }

    fn write(&mut self, alloc: Global, name: &Word, bytes: &[u8]) -> Result<(), WriteFault> {
        match self.shelf.copy(alloc, name, bytes) {
            Ok(()) => Ok(()),
            Err(NoMemory) => Err(WriteFault::NoMemory),
        }
    }

    ghost sure_tells = { λ store sure. refl };
}

/// A sink that never fails. It keeps nothing and tells nothing.
#[derive(Clone, Copy, Debug)]
pub struct SureSink;

impl SureSink {
    /// The sink.
    pub fn new() -> SureSink {
        SureSink
    }
}

impl Sink for SureSink {
    ghost seen = { λ _. record { written = None; faults = 0 } };

    fn put(&mut self, bytes: &[u8]) -> Result<(), SinkFailed> {
        Ok(())
    }
}
