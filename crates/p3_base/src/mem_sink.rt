//! A sink in memory, whose failures are planned.

ghost use Rattle.std.specs.Prelude.{◌≡◌, ◌++◌, ◌∷◌, ◌↔◌, ◌≤◌, [], Some, IfOk, OnOk, OnErr, IsErr};

use crate::{NoMemory, Sink, SinkFailed};
use std::alloc::Global;
use std::marker::Model;

/// A sink in memory. A put fails where it is planned to, or where its bytes do not fit in what is
/// left of the room; then it appends nothing.
#[derive(Drop)]
pub struct MemSink {
    bytes: Vec<u8>,
    room: usize,
    puts: u64,
    failing: Vec<u64>,
    faults: u64,
}

impl Model for MemSink {
    ghost use Rattle.std.specs.Prelude.{◌≤◌, length, vec_capacity};
    ghost use Rattle.p3_base.specs.Memory.{SinkInMemory, sink_code};

    ghost Value = { SinkInMemory };

    ghost coded = { sink_code };

    ghost view = { λ sink. record {
      written = sink.bytes.items;
      room = sink.room;
      puts = sink.puts;
      failing = sink.failing.items;
      faults = sink.faults;
    } };

    ghost invariant = { λ sink. (length sink.bytes.items ≤ sink.room) × (sink.room ≤ vec_capacity sink.bytes) };
}

impl MemSink {
    /// An empty sink with room for so many bytes, all of which it takes here.
    pub fn new(alloc: Global, room: u32) -> Result<MemSink, NoMemory>
        ensures { IfOk result (λ sink.
            sink ≡ record { written = []; room = room; puts = 0; failing = []; faults = 0 }) }
    {
        let room = room as usize;
        Ok(MemSink {
            bytes: Vec::with_capacity(alloc, room)?,
            room,
            puts: 0,
            failing: Vec::new(alloc),
            faults: 0,
        })
    }

    /// Lets the put of this number fail, counted from 0. After a refusal nothing has changed.
    pub fn fail(&mut self, put: u32) -> Result<(), NoMemory>
        ensures ok { OnOk result
            (self.new ≡ record self.old { failing = self.old.failing ++ put ∷ [] }) }
        ensures err { OnErr result (self.new ≡ self.old) }
    {
        self.failing.push(u64::from(put))?;
        Ok(())
    }

    /// What was put.
    pub fn bytes(&self) -> &[u8]
        ensures { result.now ≡ self.now.written }
    {
        self.bytes.as_slice()
    }
}

impl Sink for MemSink {
    ghost use Rattle.p3_base.specs.Memory.{IsRefused, after_put};

    ghost seen = { λ sink. record { written = Some sink.written; faults = sink.faults } };

    fn put(&mut self, bytes: &[u8]) -> Result<(), SinkFailed>
        ensures only { IsErr result ↔ IsRefused self.old bytes.now }
        ensures state { self.new ≡ after_put result bytes.now self.old }
        ensures faults_grow { self.old.faults ≤ self.new.faults }
    {
        let planned = self.failing.contains(&self.puts);
        self.puts = self.puts.saturating_add(1);
        if planned || bytes.len() > self.room - self.bytes.len() {
            self.faults = self.faults.saturating_add(1);
            return Err(SinkFailed);
        }
        self.bytes.extend_from_slice(bytes).unwrap();
        Ok(())
    }
}
