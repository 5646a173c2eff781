//! Files by name, as the compiler sees them.

ghost use Rattle.std.specs.Prelude.{◌≡◌, ◌≤◌, length, IsSome, IsTrue, OnOk, OnErr, IsErrOf};
ghost use Rattle.p3_base.specs.Outside.{
  BeginsHeld,
  FilesSeen,
  IsHeld,
  IsHolding,
  IsPartlyWritten,
  IsStored,
  IsTooLong,
  Rose,
};

use crate::{ReadFault, Word, WriteFault};
use std::alloc::Global;

/// A store of files. What it holds is told or not told: a store on a disk tells nothing.
pub trait Files {
    /// All that is seen of it: what is held, where it is told; whether no read can fail, which is true
    /// only where what is held is told; and how often a read, and a write, has failed.
    ghost seen: { Self → FilesSeen };

    /// Reads the bytes under a name, at most `limit` of them. `into` is emptied first.
    fn read(
        &mut self,
        alloc: Global,
        name: &Word,
        limit: u32,
        into: &mut Vec<u8>,
    ) -> Result<(), ReadFault>
        // A sure store is asked only for what it holds.
        requires { IsTrue (seen self.old).is_sure → IsStored (seen self.old).held name.now }
        ensures ok { OnOk result (IsHeld (seen self.old).held name.now into.new.items) }
        ensures within_limit { OnOk result (length into.new.items ≤ limit) }
        ensures too_long { IsErrOf result ReadFault.TooLong
            → IsTooLong (seen self.old).held name.now limit into.new.items }
        ensures failed { IsErrOf result ReadFault.Failed
            → Rose (seen self.old).read_faults (seen self.new).read_faults }
        ensures prefix { OnErr result (BeginsHeld (seen self.old).held name.now into.new.items) }
        ensures held_stays { (seen self.new).held ≡ (seen self.old).held }
        ensures sure_stays { (seen self.new).is_sure ≡ (seen self.old).is_sure }
        ensures read_faults_grow { (seen self.old).read_faults ≤ (seen self.new).read_faults }
        ensures write_faults_grow { (seen self.old).write_faults ≤ (seen self.new).write_faults };

    /// Puts the bytes under a name in the place of what it held. All other names keep what they held.
    fn write(&mut self, alloc: Global, name: &Word, bytes: &[u8]) -> Result<(), WriteFault>
        ensures ok { OnOk result
            (IsHolding name.now bytes.now (seen self.old).held (seen self.new).held) }
        ensures failed { IsErrOf result WriteFault.Failed
            → Rose (seen self.old).write_faults (seen self.new).write_faults }
        ensures partly { IsErrOf result WriteFault.Failed
            → IsPartlyWritten name.now bytes.now (seen self.old).held (seen self.new).held }
        // Nothing that is seen has changed: neither what is held nor how often a call has failed.
        ensures no_memory { IsErrOf result WriteFault.NoMemory → seen self.new ≡ seen self.old }
        ensures sure_stays { (seen self.new).is_sure ≡ (seen self.old).is_sure }
        ensures read_faults_grow { (seen self.old).read_faults ≤ (seen self.new).read_faults }
        ensures write_faults_grow { (seen self.old).write_faults ≤ (seen self.new).write_faults };

    ghost sure_tells: { (store : Self) → IsTrue (seen store).is_sure → IsSome (seen store).held };
}
