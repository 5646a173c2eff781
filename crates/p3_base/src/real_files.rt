//! The files of the machine.

ghost use Rattle.std.specs.Prelude.{◌≡◌, ◌+◌, ◌≤◌, ◌<◌, ◌^◌, [], None, false, length, IfOk, OnOk, IsErrOf, ◌≢◌, Err};
ghost use Rattle.std.specs.Io.KnownBytes.{Appends, Consumes, IsAtEnd};
ghost use Rattle.p3_base.specs.Outside.{IsTaken};

use crate::{Files, ReadFault, Word, WriteFault};
use std::alloc::Global;
use std::io::{Read, Write};
use std::marker::Model;
use std::{fs, rt};

/// How many bytes one read asks for at the most.
const PIECE: usize = 1 << 18;

/// The files of the machine. They tell nothing of what they hold.
#[derive(Drop)]
pub struct RealFiles<'r, R: rt::Files> {
    runtime: &'r R,
    read_faults: u64,
    write_faults: u64,
}

impl<'r, R: rt::Files> Model for RealFiles<'r, R> {
    ghost use Rattle.p3_base.specs.Memory.{FaultCounts, counts_code};

    ghost Value = { FaultCounts };

    ghost coded = { counts_code };

    ghost view = { λ files. record { reads = files.read_faults; writes = files.write_faults } };
}

impl<'r, R: rt::Files> RealFiles<'r, R> {
    /// The files that the runtime reaches.
    pub fn new(runtime: &'r R) -> RealFiles<'r, R>
        ensures { result ≡ record { reads = 0; writes = 0 } }
    {
        RealFiles {
            runtime,
            read_faults: 0,
            write_faults: 0,
        }
    }
}

impl<'r, R: rt::Files> Files for RealFiles<'r, R> {
    ghost use Rattle.p3_base.specs.Memory.{after_counted_write};

    ghost seen = { λ files. record {
      held = None;
      is_sure = false;
      read_faults = files.reads;
      write_faults = files.writes;
    } };

    fn read(
        &mut self,
        alloc: Global,
        name: &Word,
        limit: u32,
        into: &mut Vec<u8>,
    ) -> Result<(), ReadFault> {
        into.clear();
        let answer = read_file(self.runtime, alloc, name.bytes(), limit as usize, into);
        if let Err(ReadFault::Failed) = answer {
            self.read_faults = self.read_faults.saturating_add(1);
        }
        answer
    }

    /// Whatever the machine answers in place of writing all bytes is a fault.
    fn write(&mut self, alloc: Global, name: &Word, bytes: &[u8]) -> Result<(), WriteFault>
        ensures never_wants_memory { result ≢ Err WriteFault.NoMemory }
        ensures state { self.new ≡ after_counted_write result self.old }
        ensures writes_grow { self.old.writes ≤ self.new.writes }
    {
        let answer = write_file(self.runtime, name.bytes(), bytes);
        if answer.is_err() {
            self.write_faults = self.write_faults.saturating_add(1);
        }
        answer
    }

    ghost sure_tells = { λ store sure. sure };
}

/// Reads at most `limit` bytes and one more.
fn read_file<R: rt::Files>(
    runtime: &R,
    alloc: Global,
    name: &[u8],
    limit: usize,
    into: &mut Vec<u8>,
) -> Result<(), ReadFault>
    requires empty { into.old.items ≡ [] }
    requires limited { limit < 2 ^ 32 }
    ensures within_limit { OnOk result (length into.new.items ≤ limit) }
    ensures too_long { IsErrOf result ReadFault.TooLong → length into.new.items ≡ limit + 1 }
{
    let Ok(path) = str::from_utf8(name) else {
        return Err(ReadFault::Failed);
    };
    let Ok(mut file) = fs::open(runtime, path) else {
        return Err(ReadFault::Failed);
    };
    read_all(&mut file, alloc, limit, into)
}

/// Reads all that the source has, or `limit` bytes and one more.
fn read_all<T: Read>(
    source: &mut T,
    alloc: Global,
    limit: usize,
    into: &mut Vec<u8>,
) -> Result<(), ReadFault>
    requires empty { into.old.items ≡ [] }
    requires limited { limit < 2 ^ 32 }
    ensures within_limit { OnOk result (length into.new.items ≤ limit) }
    ensures too_long { IsErrOf result ReadFault.TooLong → length into.new.items ≡ limit + 1 }
    // Where the source tells its bytes, these are the first of them, and all where they are enough.
    ensures first { IsErrOf result ReadFault.TooLong
        → Consumes (T.remaining source.old) (T.remaining source.new) into.new.items }
    ensures all { OnOk result
        (Consumes (T.remaining source.old) (T.remaining source.new) into.new.items) }
    ensures at_end { OnOk result (IsAtEnd (T.remaining source.new)) }
{
    let Ok(mut piece) = Vec::from_elem(alloc, 0u8, PIECE) else {
        return Err(ReadFault::NoMemory);
    };
    while into.len() <= limit {
        let room = (limit + 1 - into.len()).min(PIECE);
        if read_piece(source, &mut piece[..room], into)? == 0 {
            return Ok(());
        }
    }
    Err(ReadFault::TooLong)
}

/// Reads once, at most as much as the piece has room for, and puts at the end what was read. Answers
/// how many bytes these are: none at the source's end alone.
fn read_piece<T: Read>(
    source: &mut T,
    piece: &mut [u8],
    into: &mut Vec<u8>,
) -> Result<usize, ReadFault>
    requires room { 0 < length piece.old }
    ensures not_long { result ≢ Err ReadFault.TooLong }
    ensures count { IfOk result (λ n. length into.new.items ≡ length into.old.items + n) }
    ensures within { IfOk result (λ n. n ≤ length piece.old) }
    ensures taken { OnOk result
        (IsTaken (T.remaining source.old) (T.remaining source.new)
        into.old.items into.new.items) }
    ensures at_end { IfOk result (λ n. n ≡ 0 → IsAtEnd (T.remaining source.new)) }
{
    let Ok(count) = source.read(piece) else {
        return Err(ReadFault::Failed);
    };
    let Ok(()) = into.extend_from_slice(&piece[..count]) else {
        return Err(ReadFault::NoMemory);
    };
    Ok(count)
}

/// Writes all bytes. A write that takes nothing is a fault.
fn write_file<R: rt::Files>(runtime: &R, name: &[u8], bytes: &[u8]) -> Result<(), WriteFault>
    ensures { result ≢ Err WriteFault.NoMemory }
{
    let Ok(path) = str::from_utf8(name) else {
        return Err(WriteFault::Failed);
    };
    let Ok(mut file) = fs::create(runtime, path) else {
        return Err(WriteFault::Failed);
    };
    write_all(&mut file, bytes)
}

/// Writes all bytes to a target. A write that takes nothing is a fault.
fn write_all<T: Write>(target: &mut T, bytes: &[u8]) -> Result<(), WriteFault>
    ensures no_want { result ≢ Err WriteFault.NoMemory }
    // Where the target tells its bytes, these stand at their end.
    ensures all { OnOk result (Appends (T.contents target.old) (T.contents target.new) bytes.now) }
{
    let mut rest = bytes;
    while !rest.is_empty() {
        match target.write(rest) {
            Ok(count) if count > 0 => rest = &rest[count..],
            _ => return Err(WriteFault::Failed),
        }
    }
    Ok(())
}
