//! How many rows hold, and what is told of those that do not.

use crate::complaint::Stop;
use crate::folder::RowsFile;
use crate::pieces::Texts;
use crate::reader::sheet_of;
use crate::row::Row;
use crate::steps::hold;
use std::alloc::Global;

/// How many rows hold and fail, with a line for each that fails.
#[derive(Drop)]
pub(crate) struct Verdict {
    held: u32,
    failed: u32,
    told: String,
}

impl Verdict {
    /// No row has been run.
    pub(crate) fn new(alloc: Global) -> Verdict {
        Verdict {
            held: 0,
            failed: 0,
            told: String::new(alloc),
        }
    }

    /// Reads a file of rows and runs each. A file that is not read counts as a row that fails.
    pub(crate) fn of(alloc: Global, file: &RowsFile, folder: &Texts) -> Result<Verdict, Stop> {
        let mut verdict = Verdict::new(alloc);
        match sheet_of(alloc, folder, file.text()) {
            Ok(sheet) => {
                for row in &sheet.rows {
                    let outcome = hold(alloc, sheet.before.as_slice(), row);
                    verdict.count(alloc, file.name(), row, outcome)?;
                }
            }
            Err(stop) => verdict.fail(alloc, file.name(), "not read", stop)?,
        }
        Ok(verdict)
    }

    /// Counts a row.
    fn count(
        &mut self,
        alloc: Global,
        file: &str,
        row: &Row,
        outcome: Result<(), Stop>,
    ) -> Result<(), Stop> {
        match outcome {
            Ok(()) => {
                self.held = self.held.saturating_add(1);
                Ok(())
            }
            Err(stop) => self.fail(alloc, file, row.name.as_str(), stop),
        }
    }

    /// Counts a failure, and tells why.
    fn fail(&mut self, alloc: Global, file: &str, row: &str, stop: Stop) -> Result<(), Stop> {
        match stop {
            Stop::Wrong(complaint) => {
                self.failed = self.failed.saturating_add(1);
                let line = complaint.line();
                let words = complaint.words();
                let told = format!(in alloc; "  {file}.rows:{line}: {row}: {words}\n")?;
                self.told.push_str(told.as_str())?;
                Ok(())
            }
            other => Err(other),
        }
    }

    /// Adds the counts of another verdict.
    pub(crate) fn add(&mut self, other: &Verdict) {
        self.held = self.held.saturating_add(other.held);
        self.failed = self.failed.saturating_add(other.failed);
    }

    /// Whether there are rows and all hold.
    pub(crate) fn is_good(&self) -> bool {
        self.held > 0 && self.failed == 0
    }

    /// Prints how many rows hold, and what is told of the others.
    pub(crate) fn print<R: Print>(&self, rt: &R, name: &str) -> Result<(), Stop> {
        let held = self.held;
        let all = self.held.saturating_add(self.failed);
        println!(rt; "{name}: {held} of {all} rows hold")?;
        rt.print(self.told.as_str())?;
        Ok(())
    }
}
