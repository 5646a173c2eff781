//! Reads a file of rows line by line.

use crate::complaint::Stop;
use crate::flaw::Flaw;
use crate::heads::{Head, LineFound, head_of};
use crate::pieces::{Known, Named, Texts, add_piece, is_piece};
use crate::quoted::first_word;
use crate::row::{Line, Row, Sheet, Step};
use p3_base::Word;
use std::alloc::Global;

/// A line that begins a text, with the pieces of it so far.
#[derive(Drop)]
struct Begun {
    number: u32,
    head: Head,
    text: Vec<u8>,
}

/// What has been read of a file of rows.
#[derive(Drop)]
struct RowsReader<'f> {
    alloc: Global,
    folder: &'f Texts,
    own: Texts,
    before: Vec<Line>,
    rows: Vec<Row>,
    begun: Option<Begun>,
}

/// Reads a file of rows. The texts of the folder may be named in it.
pub(crate) fn sheet_of(alloc: Global, folder: &Texts, text: &str) -> Result<Sheet, Stop> {
    let mut reader = RowsReader {
        alloc,
        folder,
        own: Texts::new(alloc),
        before: Vec::new(alloc),
        rows: Vec::new(alloc),
        begun: None,
    };
    let mut number = 0u32;
    for line in text.lines() {
        number = number.saturating_add(1);
        if let Err(flaw) = reader.take(number, line.trim_start()) {
            return Err(flaw.at(alloc, number));
        }
    }
    match reader.ended() {
        Ok(sheet) => Ok(sheet),
        Err(flaw) => Err(flaw.at(alloc, number)),
    }
}

impl RowsReader<'_> {
    /// Takes a line.
    fn take(&mut self, number: u32, line: &str) -> Result<(), Flaw> {
        if line.is_empty() || line.starts_with('#') {
            return Ok(());
        }
        if is_piece(line) {
            return self.add(line);
        }
        self.close()?;
        let (word, rest) = first_word(line);
        if word == "row" {
            return self.begin_row(number, rest);
        }
        match head_of(self.alloc, word, rest)? {
            LineFound::Whole(step) => self.push(number, step),
            LineFound::Begun(head, piece) => self.begin_text(number, head, piece),
        }
    }

    /// Adds a piece to the text that is begun.
    fn add(&mut self, piece: &str) -> Result<(), Flaw> {
        let known = Known {
            own: &self.own,
            folder: self.folder,
        };
        match &mut self.begun {
            Some(begun) => add_piece(self.alloc, piece, known, &mut begun.text),
            None => Err(Flaw::Told("the line above has no text")),
        }
    }

    /// Begins a text, the first piece of which may stand in the same line.
    fn begin_text(&mut self, number: u32, head: Head, piece: &str) -> Result<(), Flaw> {
        let text = Vec::new(self.alloc);
        self.begun = Some(Begun { number, head, text });
        if piece.is_empty() {
            Ok(())
        } else if is_piece(piece) {
            self.add(piece)
        } else {
            Err(Flaw::Told("a piece of text is wanted behind the name"))
        }
    }

    /// Closes the text that is begun.
    fn close(&mut self) -> Result<(), Flaw> {
        let Some(Begun { number, head, text }) = self.begun.take() else {
            return Ok(());
        };
        match head {
            Head::Let { name } => self.name(name, text),
            Head::Hold { name } => self.push(number, Step::Hold { name, bytes: text }),
            Head::Prints => self.push(number, Step::Prints { bytes: text }),
            Head::Holds { name } => self.push(number, Step::Holds { name, bytes: text }),
            Head::Counts { name, count } => {
                if text.is_empty() {
                    return Err(Flaw::Told("the line above wants a pattern"));
                }
                self.push(
                    number,
                    Step::Counts {
                        name,
                        count,
                        pattern: text,
                    },
                )
            }
        }
    }

    /// Gives a text a name that no other has.
    fn name(&mut self, name: String, bytes: Vec<u8>) -> Result<(), Flaw> {
        let is_own = self.own.bytes(name.as_str()).is_some();
        if is_own || self.folder.bytes(name.as_str()).is_some() {
            return Err(Flaw::Told("another text has the name that was given above"));
        }
        self.own.add(Named { name, bytes })?;
        Ok(())
    }

    /// Begins a row.
    fn begin_row(&mut self, number: u32, name: &str) -> Result<(), Flaw> {
        self.end_row()?;
        if name.is_empty() {
            return Err(Flaw::Told("a row has a name"));
        }
        let name = String::from_str(self.alloc, name)?;
        let lines = Vec::new(self.alloc);
        self.rows.push(Row {
            number,
            name,
            lines,
        })?;
        Ok(())
    }

    /// Adds a step to the row that is read, or to what belongs to each row.
    fn push(&mut self, number: u32, step: Step) -> Result<(), Flaw> {
        if !self.knows(&step) {
            return Err(Flaw::Told("no run above has a word of that name"));
        }
        match self.rows.last_mut() {
            Some(row) => push_step(row, number, step),
            None => {
                if !matches!(step, Step::Hold { .. }) {
                    return Err(Flaw::Told("before the first row only files are held"));
                }
                self.before.push(Line { number, step })?;
                Ok(())
            }
        }
    }

    /// Whether each name that is to be absent is a word of a run above.
    fn knows(&self, step: &Step) -> bool {
        let Step::Absent { names } = step else {
            return true;
        };
        for name in names {
            if !self.has_word(name) {
                return false;
            }
        }
        true
    }

    /// Whether a name is a word of a run above.
    fn has_word(&self, name: &Word) -> bool {
        for row in &self.rows {
            if row.has_word(name) {
                return true;
            }
        }
        false
    }

    /// Ends the row that is read.
    fn end_row(&self) -> Result<(), Flaw> {
        match self.rows.last() {
            Some(row) if !row.is_whole() => Err(Flaw::Told(
                "the row above runs nothing, a run lacks its status or what it prints, or a file is held that no run names",
            )),
            _ => Ok(()),
        }
    }

    /// Ends the file.
    fn ended(mut self) -> Result<Sheet, Flaw> {
        self.close()?;
        self.end_row()?;
        if self.rows.is_empty() {
            return Err(Flaw::Told("the file has no row"));
        }
        Ok(Sheet {
            before: self.before,
            rows: self.rows,
        })
    }
}

/// Adds a step to a row.
fn push_step(row: &mut Row, number: u32, step: Step) -> Result<(), Flaw> {
    let last = row.lines.last().map(|line| &line.step);
    if !step.may_follow(last) {
        return Err(Flaw::Told(
            "`run`, `status` and `prints` stand in this order, one behind the other",
        ));
    }
    row.lines.push(Line { number, step })?;
    Ok(())
}
