//! Runs with each call of the files failing in turn.

use crate::complaint::Stop;
use crate::row::{Access, FaultWord};
use crate::world::World;
use p3_base::Word;
use std::alloc::Global;
use std::cmp::Ordering;

/// How many bytes a write that fails leaves: none, one, or all.
const LEFT: [u32; 3] = [0, 1, u32::MAX];

/// A command line whose calls of the files fail in turn.
#[derive(Drop)]
struct Faults<'r> {
    line: u32,
    before: &'r World,
    words: &'r [FaultWord],
    command: Vec<Word>,
}

/// Runs the words with each read and each write failing in turn, behind a run without a fault. The
/// reads come first, in the order of the words, and then the writes.
pub(crate) fn run_faults(
    alloc: Global,
    before: &World,
    line: u32,
    words: &[FaultWord],
) -> Result<(), Stop> {
    let mut command = Vec::new(alloc);
    for word in words {
        command.push(Word::of(alloc, word.word.bytes())?)?;
    }
    let faults = Faults {
        line,
        before,
        words,
        command,
    };
    let calls = faults.reads_fail(alloc)?;
    faults.writes_fail(alloc, calls)
}

/// At most so many of the first bytes.
fn first(bytes: &[u8], count: u32) -> &[u8] {
    &bytes[..bytes.len().min(count as usize)]
}

impl Faults<'_> {
    /// The files that are read.
    fn world(&self, alloc: Global) -> Result<World, Stop> {
        let mut world = World::new(alloc)?;
        for word in self.words {
            if let Access::Read { .. } = word.access {
                let Some(bytes) = self.before.held(&word.word) else {
                    return Err(Stop::saying(alloc, self.line, "a file that is read is not held"));
                };
                world.hold(&word.word, bytes)?;
            }
        }
        Ok(world)
    }

    /// Each read fails in turn. It answers how many there are.
    fn reads_fail(&self, alloc: Global) -> Result<u32, Stop> {
        let mut call = 0u32;
        for word in self.words {
            if let Access::Read { role } = &word.access {
                self.read_fails(alloc, call, role.as_str())?;
                call = call.saturating_add(1);
            }
        }
        Ok(call)
    }

    /// Where a read fails, nothing is written.
    fn read_fails(&self, alloc: Global, call: u32, role: &str) -> Result<(), Stop> {
        let mut world = self.world(alloc)?;
        world.fail(call, 0)?;
        world.run(self.command.as_slice());
        world.ends(self.line, 3)?;
        let printed = format!(in alloc; "read fault: {role}\n")?;
        world.prints(self.line, printed.as_bytes())?;
        for word in self.words {
            if let Access::Written { .. } = word.access {
                world.holds(self.line, &word.word, None)?;
            }
        }
        Ok(())
    }

    /// Each write fails in turn, behind so many reads.
    fn writes_fail(&self, alloc: Global, reads: u32) -> Result<(), Stop> {
        let mut whole = self.world(alloc)?;
        whole.run(self.command.as_slice());
        whole.ends(self.line, 0)?;
        let mut call = reads;
        for (place, word) in self.words.iter().enumerate() {
            if let Access::Written { role } = &word.access {
                for left in LEFT {
                    let world = self.write_fails(alloc, call, left, role.as_str())?;
                    self.leaves(&whole, &world, place, left)?;
                }
                call = call.saturating_add(1);
            }
        }
        Ok(())
    }

    /// Runs the words where a write fails.
    fn write_fails(&self, alloc: Global, call: u32, left: u32, role: &str) -> Result<World, Stop> {
        let mut world = self.world(alloc)?;
        world.fail(call, left)?;
        world.run(self.command.as_slice());
        world.ends(self.line, 4)?;
        let printed = format!(in alloc; "write fault: {role}\n")?;
        world.prints(self.line, printed.as_bytes())?;
        Ok(world)
    }

    /// Whether the outputs before a place are whole, the one there has its first bytes, and the ones
    /// behind it are not there.
    fn leaves(&self, whole: &World, world: &World, place: usize, left: u32) -> Result<(), Stop> {
        for (other, word) in self.words.iter().enumerate() {
            if let Access::Written { .. } = word.access {
                let name = &word.word;
                let bytes = match other.cmp(&place) {
                    Ordering::Less => whole.held(name),
                    Ordering::Equal => whole.held(name).map(|bytes| first(bytes, left)),
                    Ordering::Greater => None,
                };
                world.holds(self.line, name, bytes)?;
            }
        }
        Ok(())
    }
}
