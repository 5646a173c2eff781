//! Rows, as they are read.

use p3_base::Word;

/// What one line of a row says, with the lines of the text that belongs to it.
#[derive(Drop)]
pub(crate) enum Step {
    /// A file holds these bytes.
    Hold {
        name: Word,
        bytes: Vec<u8>,
    },
    /// The call of the files of this number fails. A write leaves so many bytes.
    FailCall {
        call: u32,
        left: u32,
    },
    /// The put of this number fails.
    FailPut {
        put: u32,
    },
    /// The words are run.
    Run {
        words: Vec<Word>,
    },
    /// The words are run over files and a sink that never fail.
    RunSure {
        words: Vec<Word>,
    },
    /// The words are asked of the program that says why.
    Why {
        words: Vec<Word>,
    },
    /// How the run above ends.
    Status {
        status: u8,
    },
    /// What the run above prints.
    Prints {
        bytes: Vec<u8>,
    },
    /// No file has any of these names.
    Absent {
        names: Vec<Word>,
    },
    /// A file now holds these bytes.
    Holds {
        name: Word,
        bytes: Vec<u8>,
    },
    /// Two files hold the same.
    Same {
        name: Word,
        other: Word,
    },
    /// A pattern stands in a file so many times.
    Counts {
        name: Word,
        count: u32,
        pattern: Vec<u8>,
    },
    /// The words are run for each first part of a file that lacks its last `)`.
    Cuts {
        name: Word,
        role: String,
        words: Vec<Word>,
    },
    /// The words are run with each call of the files failing in turn.
    Faults {
        words: Vec<FaultWord>,
    },
}

/// A word of a command line whose calls fail in turn.
#[derive(Drop)]
pub(crate) struct FaultWord {
    /// The word.
    pub(crate) word: Word,
    /// What becomes of the file of that name.
    pub(crate) access: Access,
}

/// What a run does with the file that a word names, and what a fault there is told of.
#[derive(Drop)]
pub(crate) enum Access {
    /// The word names no file.
    Unused,
    /// The file is read.
    Read { role: String },
    /// The file is written.
    Written { role: String },
}

/// A line of a row.
#[derive(Drop)]
pub(crate) struct Line {
    /// The number of the line in its file.
    pub(crate) number: u32,
    /// What it says.
    pub(crate) step: Step,
}

/// A row.
#[derive(Drop)]
pub(crate) struct Row {
    /// The number of the line that names it.
    pub(crate) number: u32,
    /// Its name.
    pub(crate) name: String,
    /// What it says.
    pub(crate) lines: Vec<Line>,
}

/// A file of rows.
#[derive(Drop)]
pub(crate) struct Sheet {
    /// What stands before the first row, and belongs to each.
    pub(crate) before: Vec<Line>,
    /// The rows.
    pub(crate) rows: Vec<Row>,
}

impl Step {
    /// Whether the step may stand behind another one. A run is followed by its status, and that by
    /// what is printed.
    pub(crate) fn may_follow(&self, before: Option<&Step>) -> bool {
        match before {
            Some(Step::Run { .. } | Step::RunSure { .. } | Step::Why { .. }) => {
                matches!(self, Step::Status { .. })
            }
            Some(Step::Status { .. }) => matches!(self, Step::Prints { .. }),
            _ => !matches!(self, Step::Status { .. } | Step::Prints { .. }),
        }
    }

    /// Whether a row may end with the step.
    pub(crate) fn may_end(&self) -> bool {
        !matches!(
            self,
            Step::Run { .. } | Step::RunSure { .. } | Step::Why { .. } | Step::Status { .. }
        )
    }

    /// Whether the step runs something with that word.
    fn has_word(&self, name: &Word) -> bool {
        match self {
            Step::Run { words }
            | Step::RunSure { words }
            | Step::Why { words }
            | Step::Cuts { words, .. } => is_among(name, words.as_slice()),
            Step::Faults { words } => is_fault_word(name, words.as_slice()),
            _ => false,
        }
    }

    /// Whether the step runs something.
    pub(crate) fn runs(&self) -> bool {
        matches!(
            self,
            Step::Run { .. }
                | Step::RunSure { .. }
                | Step::Why { .. }
                | Step::Cuts { .. }
                | Step::Faults { .. }
        )
    }
}

impl Row {
    /// Whether the row runs something, no run lacks its status or what it prints, and each file that
    /// is held is a word of a run.
    pub(crate) fn is_whole(&self) -> bool {
        let ends = match self.lines.last() {
            Some(line) => line.step.may_end(),
            None => false,
        };
        ends && self.lines.iter().any(|line| line.step.runs()) && self.uses_what_it_holds()
    }

    /// Whether each file that is held is a word of a run.
    fn uses_what_it_holds(&self) -> bool {
        for line in &self.lines {
            if let Step::Hold { name, .. } = &line.step {
                if !self.has_word(name) {
                    return false;
                }
            }
        }
        true
    }

    /// Whether a name is a word of a run.
    pub(crate) fn has_word(&self, name: &Word) -> bool {
        for line in &self.lines {
            if line.step.has_word(name) {
                return true;
            }
        }
        false
    }
}

/// Whether a name is among some words.
fn is_among(name: &Word, words: &[Word]) -> bool {
    for word in words {
        if word.bytes() == name.bytes() {
            return true;
        }
    }
    false
}

/// Whether a name is among the words of a command line whose calls fail.
fn is_fault_word(name: &Word, words: &[FaultWord]) -> bool {
    for word in words {
        if word.word.bytes() == name.bytes() {
            return true;
        }
    }
    false
}
