//! Files of worked rows: reads them, runs their rows over files in memory, and says what does not
//! hold.
#![tactic(auto)]

mod complaint;
mod cuts;
mod faults;
mod flaw;
mod folder;
mod heads;
mod pieces;
mod quoted;
mod reader;
mod row;
mod shown;
mod steps;
mod verdict;
mod world;

use complaint::Stop;
use folder::Folder;
use std::rt::Files;
use verdict::Verdict;

/// Runs each file of rows that lies in the folder, in the order of their names, and prints how many
/// of its rows hold. It tells whether all rows hold, or nothing where the files were not read, what
/// is printed was not put, or memory is wanting.
pub fn all_hold<R: Files + AllocGlobal + Print + Clone + Drop>(rt: &R) -> Option<bool> {
    match verdict_of_all(rt) {
        Ok(holds) => Some(holds),
        Err(_) => None,
    }
}

/// The same, with why it stops.
fn verdict_of_all<R: Files + AllocGlobal + Print + Clone + Drop>(rt: &R) -> Result<bool, Stop> {
    let alloc = rt.alloc();
    let folder = Folder::read(rt)?;
    let mut total = Verdict::new(alloc);
    for file in folder.rows() {
        let verdict = Verdict::of(alloc, file, folder.texts())?;
        verdict.print(rt, file.name())?;
        total.add(&verdict);
    }
    total.print(rt, "all files")?;
    Ok(total.is_good())
}
