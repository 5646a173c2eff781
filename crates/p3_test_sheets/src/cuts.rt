//! Runs over each first part of a text that lacks its last `)`.

use crate::complaint::Stop;
use crate::world::World;
use p3_base::Word;
use std::alloc::Global;

/// A file that is cut, what a refusal calls it, and the words that are run.
#[derive(Clone, Copy)]
struct Cut<'r> {
    line: u32,
    name: &'r Word,
    role: &'r str,
    words: &'r [Word],
}

/// Runs the words for each first part of the file. Each run is to be refused at the end of the text,
/// and leaves no file behind that was not there. A first part of a plan counts only where it ends
/// inside a step.
pub(crate) fn run_cuts(
    alloc: Global,
    before: &World,
    line: u32,
    name: &Word,
    role: &str,
    words: &[Word],
) -> Result<(), Stop> {
    let cut = Cut {
        line,
        name,
        role,
        words,
    };
    let Some(text) = before.held(name) else {
        return Err(Stop::saying(alloc, line, "the file that is cut is not held"));
    };
    let Some(last) = text.iter().rposition(|byte| *byte == b')') else {
        return Err(Stop::saying(alloc, line, "the file that is cut has no )"));
    };
    let mut is_run = false;
    for end in 0..text.len() {
        let part = &text[..end];
        if end <= last && (role != "plan" || is_inside(part)) {
            cut.is_refused(alloc, before, part)?;
            is_run = true;
        }
    }
    if is_run {
        Ok(())
    } else {
        Err(Stop::saying(alloc, line, "the file that is cut has no step"))
    }
}

/// Whether a plan text ends inside a step.
fn is_inside(text: &[u8]) -> bool {
    let mut is_inside = false;
    for byte in text {
        match *byte {
            b'(' => is_inside = true,
            b')' => is_inside = false,
            _ => {}
        }
    }
    is_inside
}

/// The line and the column of the end of a text.
fn end_of(text: &[u8]) -> (u32, u32) {
    let mut line = 1u32;
    let mut column = 1u32;
    for byte in text {
        if *byte == b'\n' {
            line = line.saturating_add(1);
            column = 1;
        } else {
            column = column.saturating_add(1);
        }
    }
    (line, column)
}

impl Cut<'_> {
    /// Runs the words where the file holds a first part alone.
    fn is_refused(&self, alloc: Global, before: &World, part: &[u8]) -> Result<(), Stop> {
        let mut world = World::new(alloc)?;
        for word in self.words {
            if let Some(bytes) = before.held(word) {
                world.hold(word, bytes)?;
            }
        }
        world.hold(self.name, part)?;
        world.run(self.words);
        world.ends(self.line, 2)?;
        let (line, column) = end_of(part);
        let role = self.role;
        let printed = format!(in alloc;
            "refused 2 unbalanced: {role} {line}:{column} end of text\n"
        )?;
        world.prints(self.line, printed.as_bytes())?;
        for word in self.words {
            if before.held(word).is_none() {
                world.holds(self.line, word, None)?;
            }
        }
        Ok(())
    }
}
