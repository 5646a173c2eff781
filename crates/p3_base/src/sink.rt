//! Where a report is put.

ghost use Rattle.std.specs.Prelude.{◌≡◌, ◌≤◌, OnOk, OnErr};
ghost use Rattle.p3_base.specs.Outside.{IsPartlyPut, IsPut, Rose, SinkSeen};

use crate::SinkFailed;

/// A sink of bytes. What it was given is told or not told.
pub trait Sink {
    /// All that is seen of it: what was put so far, where it is told, and how often a put has failed.
    ghost seen: { Self → SinkSeen };

    /// Puts the bytes at the end. It takes no memory. After a failure a first part of them is there.
    fn put(&mut self, bytes: &[u8]) -> Result<(), SinkFailed>
        ensures ok { OnOk result (IsPut bytes.now (seen self.old).written (seen self.new).written) }
        ensures failed { OnErr result (Rose (seen self.old).faults (seen self.new).faults) }
        ensures partly { OnErr result
            (IsPartlyPut bytes.now (seen self.old).written (seen self.new).written) }
        ensures faults_grow { (seen self.old).faults ≤ (seen self.new).faults };
}
