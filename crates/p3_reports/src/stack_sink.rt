//! Room for bytes on the stack, in which what is put is made before it is put at once.

ghost use Rattle.std.specs.Prelude.{◌≡◌, []};

use arrayvec::ArrayVec;
use p3_base::{Sink, SinkFailed};

/// A sink on the stack, with room for so many bytes. A put fails where its bytes do not fit in what
/// is left of the room; then it appends nothing.
#[derive(Drop)]
pub struct StackSink<const ROOM: usize> {
    bytes: ArrayVec<u8, ROOM>,
    faults: u64,
}

impl<const ROOM: usize> StackSink<ROOM> {
    /// Makes an empty one.
    pub fn new() -> StackSink<ROOM>
        ensures { result.bytes.items ≡ [] }
    {
        StackSink {
            bytes: ArrayVec::new(),
            faults: 0,
        }
    }

    /// Gives what was put.
    pub fn bytes(&self) -> &[u8]
        ensures { result.now ≡ self.now.bytes.items }
    {
        self.bytes.as_slice()
    }
}

impl<const ROOM: usize> Sink for StackSink<ROOM> {
    ghost use Rattle.std.specs.Prelude.{Some};

    ghost seen = { λ sink. record { written = Some sink.bytes.items; faults = sink.faults } };

    fn put(&mut self, bytes: &[u8]) -> Result<(), SinkFailed> {
        match self.bytes.try_extend_from_slice(bytes) {
            Ok(()) => Ok(()),
            Err(_) => {
                self.faults = self.faults.saturating_add(1);
                Err(SinkFailed)
            }
        }
    }
}
