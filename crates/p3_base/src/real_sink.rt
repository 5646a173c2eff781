//! Standard output.

ghost use Rattle.std.specs.Prelude.{◌≡◌, None};

use crate::{Sink, SinkFailed};
use std::io::Print;
use std::marker::Model;

/// Standard output. It tells nothing of what it was given.
#[derive(Drop)]
pub struct RealSink<'r, R: Print> {
    runtime: &'r R,
    faults: u64,
}

impl<'r, R: Print> Model for RealSink<'r, R> {
    ghost use Rattle.std.specs.Prelude.{ℕ};

    ghost Value = { ℕ };

    ghost view = { λ sink. sink.faults };
}

impl<'r, R: Print> RealSink<'r, R> {
    /// The standard output that the runtime reaches.
    pub fn new(runtime: &'r R) -> RealSink<'r, R>
        ensures { result ≡ 0 }
    {
        RealSink { runtime, faults: 0 }
    }
}

impl<'r, R: Print> Sink for RealSink<'r, R> {
    ghost seen = { λ sink. record { written = None; faults = sink } };

    fn put(&mut self, bytes: &[u8]) -> Result<(), SinkFailed> {
        let mut rest = bytes;
        while !rest.is_empty() {
            match self.runtime.write_some(rest) {
                Ok(count) if count > 0 => rest = &rest[count..],
                _ => {
                    self.faults = self.faults.saturating_add(1);
                    return Err(SinkFailed);
                }
            }
        }
        Ok(())
    }
}
