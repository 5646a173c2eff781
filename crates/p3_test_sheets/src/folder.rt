//! The files that lie where the program runs: files of rows, and texts that rows name.

use crate::complaint::Stop;
use crate::pieces::{Named, Texts};
use std::alloc::Global;
use std::fs;
use std::rt::Files;

/// How the name of a file of rows ends.
const ENDING: &str = ".rows";

/// A file of rows, with its whole text.
#[derive(Drop)]
pub(crate) struct RowsFile {
    name: String,
    text: String,
}

impl RowsFile {
    /// The name, without its ending.
    pub(crate) fn name(&self) -> &str {
        self.name.as_str()
    }

    /// The text.
    pub(crate) fn text(&self) -> &str {
        self.text.as_str()
    }
}

/// The files of rows in the order of their names, and the texts of all other files.
#[derive(Drop)]
pub(crate) struct Folder {
    rows: Vec<RowsFile>,
    texts: Texts,
}

impl Folder {
    /// Reads all files of the folder where the program runs.
    pub(crate) fn read<R: Files + AllocGlobal + Clone + Drop>(rt: &R) -> Result<Folder, Stop> {
        let alloc = rt.alloc();
        let mut folder = Folder {
            rows: Vec::new(alloc),
            texts: Texts::new(alloc),
        };
        for name in &names(rt)? {
            folder.take(rt, name.as_str())?;
        }
        Ok(folder)
    }

    /// Reads one file.
    fn take<R: Files + AllocGlobal>(&mut self, rt: &R, name: &str) -> Result<(), Stop> {
        let alloc = rt.alloc();
        match name.strip_suffix(ENDING) {
            Some(name_of_rows) => {
                let text = fs::read_to_string(rt, name)?;
                let name = String::from_str(alloc, name_of_rows)?;
                self.rows.push(RowsFile { name, text })?;
            }
            None => {
                let bytes = fs::read(rt, name)?;
                let name = String::from_str(alloc, name)?;
                self.texts.add(Named { name, bytes })?;
            }
        }
        Ok(())
    }

    /// The files of rows.
    pub(crate) fn rows(&self) -> &[RowsFile] {
        self.rows.as_slice()
    }

    /// The texts of the other files, by the names of the files.
    pub(crate) fn texts(&self) -> &Texts {
        &self.texts
    }
}

/// The names of the files, in order.
fn names<R: Files + AllocGlobal + Clone + Drop>(rt: &R) -> Result<Vec<String>, Stop> {
    let alloc = rt.alloc();
    let mut names = Vec::new(alloc);
    for entry in fs::read_dir(rt, ".")? {
        let entry = entry?;
        names.push(String::from_str(alloc, entry.file_name())?)?;
    }
    names.sort()?;
    Ok(names)
}
