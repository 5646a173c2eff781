//! Does what the lines of a row say.

use crate::complaint::Stop;
use crate::cuts::run_cuts;
use crate::faults::run_faults;
use crate::row::{Line, Row, Step};
use crate::world::World;
use p3_base::Word;
use std::alloc::Global;

/// Does what a row says behind what belongs to each row, or tells the first line that does not hold.
pub(crate) fn hold(alloc: Global, before: &[Line], row: &Row) -> Result<(), Stop> {
    let mut world = World::new(alloc)?;
    for line in before {
        take(alloc, &mut world, line)?;
    }
    for line in &row.lines {
        take(alloc, &mut world, line)?;
    }
    Ok(())
}

/// Does what a line says.
fn take(alloc: Global, world: &mut World, line: &Line) -> Result<(), Stop> {
    let number = line.number;
    match &line.step {
        Step::Hold { name, bytes } => world.hold(name, bytes.as_slice())?,
        Step::FailCall { call, left } => world.fail(*call, *left)?,
        Step::FailPut { put } => world.fail_put(*put)?,
        Step::Run { words } => world.run(words.as_slice()),
        Step::RunSure { words } => world.run_sure(number, words.as_slice())?,
        Step::Why { words } => world.why(words.as_slice()),
        Step::Status { status } => world.ends(number, *status)?,
        Step::Prints { bytes } => world.prints(number, bytes.as_slice())?,
        Step::Absent { names } => lacks(world, number, names.as_slice())?,
        Step::Holds { name, bytes } => world.holds(number, name, Some(bytes.as_slice()))?,
        Step::Same { name, other } => is_same(alloc, world, number, name, other)?,
        Step::Counts {
            name,
            count,
            pattern,
        } => {
            let wanted = *count;
            counts(alloc, world, number, name, wanted, pattern.as_slice())?
        }
        Step::Cuts { name, role, words } => {
            run_cuts(alloc, world, number, name, role.as_str(), words.as_slice())?
        }
        Step::Faults { words } => run_faults(alloc, world, number, words.as_slice())?,
    }
    Ok(())
}

/// Whether no file has any of the names.
fn lacks(world: &World, line: u32, names: &[Word]) -> Result<(), Stop> {
    for name in names {
        world.holds(line, name, None)?;
    }
    Ok(())
}

/// Whether two files are there and hold the same.
fn is_same(alloc: Global, world: &World, line: u32, name: &Word, other: &Word) -> Result<(), Stop> {
    match world.held(other) {
        Some(bytes) => world.holds(line, name, Some(bytes)),
        None => Err(Stop::saying(alloc, line, "the second file is not there")),
    }
}

/// Whether a pattern stands in a file so many times.
fn counts(
    alloc: Global,
    world: &World,
    line: u32,
    name: &Word,
    count: u32,
    pattern: &[u8],
) -> Result<(), Stop> {
    let Some(text) = world.held(name) else {
        return Err(Stop::saying(alloc, line, "the file is not there"));
    };
    let came = count_in(text, pattern);
    if came == count {
        return Ok(());
    }
    let words = format!(in alloc; "{count} places are wanted, and {came} came")?;
    Err(Stop::at(line, words))
}

/// How often a pattern stands in a text.
fn count_in(text: &[u8], pattern: &[u8]) -> u32 {
    let mut count = 0u32;
    for at in 0..text.len() {
        if begins(&text[at..], pattern) {
            count = count.saturating_add(1);
        }
    }
    count
}

/// Whether a text begins with a pattern, in which `#` stands for one digit or more.
fn begins(text: &[u8], pattern: &[u8]) -> bool {
    let mut rest = text;
    for byte in pattern {
        let behind = if *byte == b'#' {
            behind_digits(rest)
        } else {
            rest.strip_prefix(&[*byte])
        };
        match behind {
            Some(behind) => rest = behind,
            None => return false,
        }
    }
    true
}

/// What stands behind the digits that begin a text.
fn behind_digits(text: &[u8]) -> Option<&[u8]> {
    match text.iter().position(|byte| !byte.is_ascii_digit()) {
        Some(0) => None,
        Some(at) => text.get(at..),
        None => None,
    }
}
