//! Files in memory, whose failures are planned.

ghost use Rattle.std.specs.Prelude.{◌≡◌, ◌+◌, ◌≤◌, ◌↔◌, ◌⊎◌, ◌∷◌, ◌++◌, [], Some, None, length, false, IsNone, IsTrue, OnOk, OnErr, IsErrOf, IsErr, refl};
ghost use Rattle.std.specs.Option.{option_copied};
ghost use Rattle.std.specs.FinMap as map;
ghost use Rattle.p3_base.specs.Outside.{IsStored, IsHeld, IsTooLong, BeginsHeld, IsPartlyWritten, Rose, bytes_under, holding};

use crate::shelf::Shelf;
use crate::{Files, NoMemory, ReadFault, Word, WriteFault};
use std::alloc::Global;
use std::marker::Model;

/// Files in memory. A read of an absent name fails, and so do the calls that are planned to.
#[derive(Drop)]
pub struct MemFiles {
    shelf: Shelf,
    calls: u64,
    failures: Vec<(u32, u32)>,
    read_faults: u64,
    write_faults: u64,
}

impl Model for MemFiles {
    ghost use Rattle.p3_base.specs.Memory.{FilesInMemory, files_code};

    ghost Value = { FilesInMemory };

    ghost coded = { files_code };

    ghost view = { λ files. record {
      held = files.shelf;
      calls = files.calls;
      failures = files.failures.items;
      read_faults = files.read_faults;
      write_faults = files.write_faults;
    } };
}

impl MemFiles {
    ghost use Rattle.p3_base.specs.Memory.{after_call, planned};

    /// Holds nothing, and no call is planned to fail.
    pub fn new(alloc: Global) -> MemFiles
        ensures { result ≡ record {
          held = map.empty;
          calls = 0;
          failures = [];
          read_faults = 0;
          write_faults = 0;
        } }
    {
        MemFiles {
            shelf: Shelf::new(alloc),
            calls: 0,
            failures: Vec::new(alloc),
            read_faults: 0,
            write_faults: 0,
        }
    }

    /// Puts bytes under a name. After a refusal nothing has changed.
    pub fn hold(&mut self, name: Word, bytes: Vec<u8>) -> Result<(), NoMemory>
        ensures ok { OnOk result
            (self.new ≡ record self.old { held = map.insert self.old.held name bytes.items }) }
        ensures err { OnErr result (self.new ≡ self.old) }
    {
        self.shelf.hold(name, bytes)
    }

    /// Lets the call of this number fail, reads and writes being counted together from 0. A write
    /// that fails so leaves the first `prefix` bytes, or all where there are fewer. Of two plans for
    /// one call the first counts. After a refusal nothing has changed.
    pub fn fail(&mut self, call: u32, prefix: u32) -> Result<(), NoMemory>
        ensures ok { OnOk result
            (self.new
            ≡ record self.old { failures = self.old.failures ++ (call, prefix) ∷ [] }) }
        ensures err { OnErr result (self.new ≡ self.old) }
    {
        self.failures.push((call, prefix))?;
        Ok(())
    }

    /// What is held under a name.
    pub fn bytes(&self, name: &Word) -> Option<&[u8]>
        ensures { option_copied result ≡ bytes_under self.now.held name.now }
    {
        self.shelf.bytes(name)
    }

    /// Counts a call, and tells how many bytes it leaves where it is to fail.
    fn next_call(&mut self) -> Option<u32>
        ensures planned { result ≡ planned self.old }
        ensures counted { self.new ≡ after_call self.old }
    {
        let call = self.calls;
        self.calls = call.saturating_add(1);
        self.failures
            .iter()
            .find(|failure| u64::from(failure.0) == call)
            .map(|failure| failure.1)
    }
}

impl Files for MemFiles {
    ghost use Rattle.p3_base.specs.Memory.{IsPlanned, after_read, after_write};

    ghost seen = { λ files. record {
      held = Some files.held;
      is_sure = false;
      read_faults = files.read_faults;
      write_faults = files.write_faults;
    } };

    fn read(
        &mut self,
        alloc: Global,
        name: &Word,
        limit: u32,
        into: &mut Vec<u8>,
    ) -> Result<(), ReadFault>
        ensures ok { OnOk result (IsHeld (Some self.old.held) name.now into.new.items) }
        ensures within_limit { OnOk result (length into.new.items ≤ limit) }
        ensures too_long { IsErrOf result ReadFault.TooLong
            → IsTooLong (Some self.old.held) name.now limit into.new.items }
        ensures prefix { OnErr result (BeginsHeld (Some self.old.held) name.now into.new.items) }
        ensures only_planned { IsErrOf result ReadFault.Failed
            ↔ (IsPlanned self.old ⊎ IsNone (bytes_under self.old.held name.now)) }
        ensures state { self.new ≡ after_read result self.old }
        ensures read_faults_grow { self.old.read_faults ≤ self.new.read_faults }
    {
        let answer = match self.next_call() {
            None => self.shelf.read(name, limit, into),
            Some(_) => {
                into.clear();
                Err(ReadFault::Failed)
            }
        };
        if let Err(ReadFault::Failed) = answer {
            self.read_faults = self.read_faults.saturating_add(1);
        }
        answer
    }

    fn write(&mut self, alloc: Global, name: &Word, bytes: &[u8]) -> Result<(), WriteFault>
        ensures failed_only_planned { IsErrOf result WriteFault.Failed → IsPlanned self.old }
        ensures planned_fails { IsPlanned self.old → IsErr result }
        ensures state { self.new ≡ after_write result name.now bytes.now self.old }
        ensures write_faults_grow { self.old.write_faults ≤ self.new.write_faults }
    {
        match self.next_call() {
            None => match self.shelf.copy(alloc, name, bytes) {
                Ok(()) => Ok(()),
                Err(NoMemory) => Err(WriteFault::NoMemory),
            },
            Some(prefix) => {
                let len = bytes.len().min(prefix as usize);
                match self.shelf.copy(alloc, name, &bytes[..len]) {
                    Ok(()) => {
                        self.write_faults = self.write_faults.saturating_add(1);
                        Err(WriteFault::Failed)
                    }
                    Err(NoMemory) => Err(WriteFault::NoMemory),
                }
            }
        }
    }

    ghost sure_tells = { λ store sure. refl };
}
