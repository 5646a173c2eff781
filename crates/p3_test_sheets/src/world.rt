//! Files and a sink in memory, and what a run over them leaves.

ghost use Rattle.std.specs.Prelude.{◌≡◌, OnOk, drop};
ghost use Rattle.std.specs.Option.{option_copied};
ghost use Rattle.p3_base.specs.Outside.{bytes_under};

use crate::complaint::Stop;
use crate::shown::{difference, shown};
use p3_base::{MemFiles, MemSink, NoMemory, SureFiles, SureSink, Word};
use p3_cli::{are_held, run, run_sure};
use p3_why::why;
use std::alloc::Global;

/// How many bytes the runs of a row may print.
const ROOM: u32 = 1 << 24;

/// Files and a sink in memory, and the last run over them.
#[derive(Drop)]
pub(crate) struct World {
    alloc: Global,
    files: MemFiles,
    sink: MemSink,
    status: u8,
    printed_before: usize,
}

impl World {
    /// No file is held.
    pub(crate) fn new(alloc: Global) -> Result<World, NoMemory> {
        let sink = MemSink::new(alloc, ROOM)?;
        let files = MemFiles::new(alloc);
        Ok(World {
            alloc,
            files,
            sink,
            status: 0,
            printed_before: 0,
        })
    }

    /// Holds these bytes under a name.
    pub(crate) fn hold(&mut self, name: &Word, bytes: &[u8]) -> Result<(), NoMemory> {
        let name = Word::of(self.alloc, name.bytes())?;
        let bytes = Vec::from_slice(self.alloc, bytes)?;
        self.files.hold(name, bytes)
    }

    /// What is held under a name.
    pub(crate) fn held(&self, name: &Word) -> Option<&[u8]>
        ensures { option_copied result ≡ bytes_under self.now.files.held name.now }
    {
        self.files.bytes(name)
    }

    /// Lets a call of the files fail. A write leaves so many bytes.
    pub(crate) fn fail(&mut self, call: u32, left: u32) -> Result<(), NoMemory> {
        self.files.fail(call, left)
    }

    /// Lets a put fail.
    pub(crate) fn fail_put(&mut self, put: u32) -> Result<(), NoMemory> {
        self.sink.fail(put)
    }

    /// Runs the words.
    pub(crate) fn run(&mut self, words: &[Word]) {
        self.printed_before = self.sink.bytes().len();
        self.status = run(self.alloc, words, &mut self.files, &mut self.sink);
    }

    /// Asks the words of the program that says why.
    pub(crate) fn why(&mut self, words: &[Word]) {
        self.printed_before = self.sink.bytes().len();
        self.status = why(self.alloc, words, &mut self.files, &mut self.sink);
    }

    /// Runs the words over files and a sink that never fail. The files hold what the words name here,
    /// and what they hold then is held here; of what is put nothing is kept.
    pub(crate) fn run_sure(&mut self, line: u32, words: &[Word]) -> Result<(), Stop> {
        let mut files = self.sure_files(words)?;
        if !are_held(words, &files) {
            return Err(Stop::saying(self.alloc, line, "a file that is read is not held"));
        }
        let mut sink = SureSink::new();
        self.printed_before = self.sink.bytes().len();
        self.status = run_sure(self.alloc, words, &mut files, &mut sink);
        for word in words {
            if let Some(bytes) = files.bytes(word) {
                self.hold(word, bytes)?;
            }
        }
        Ok(())
    }

    /// Files that never fail, which hold what some of the words name here.
    fn sure_files(&self, words: &[Word]) -> Result<SureFiles, NoMemory> {
        let mut files = SureFiles::new(self.alloc);
        for word in words {
            if let Some(bytes) = self.held(word) {
                let name = Word::of(self.alloc, word.bytes())?;
                files.hold(name, Vec::from_slice(self.alloc, bytes)?)?;
            }
        }
        Ok(files)
    }

    /// What the last run printed.
    fn printed(&self) -> &[u8]
        ensures { result.now ≡ drop self.now.printed_before self.now.sink.written }
    {
        match self.sink.bytes().get(self.printed_before..) {
            Some(bytes) => bytes,
            None => b"".as_slice(),
        }
    }

    /// Whether the last run ended with that status.
    pub(crate) fn ends(&self, line: u32, status: u8) -> Result<(), Stop>
        ensures { OnOk result (self.now.status ≡ status) }
    {
        let came = self.status;
        if came == status {
            return Ok(());
        }
        let words = format!(in self.alloc; "status {status} is wanted, and {came} came")?;
        Err(Stop::at(line, words))
    }

    /// Whether the last run printed that.
    pub(crate) fn prints(&self, line: u32, bytes: &[u8]) -> Result<(), Stop>
        ensures { OnOk result
            (drop self.now.printed_before self.now.sink.written ≡ bytes.now) }
    {
        let came = self.printed();
        if came == bytes {
            return Ok(());
        }
        let words = difference(self.alloc, "printed", bytes, came)?;
        Err(Stop::at(line, words))
    }

    /// Whether a file holds these bytes, or is not there.
    pub(crate) fn holds(&self, line: u32, name: &Word, bytes: Option<&[u8]>) -> Result<(), Stop>
        ensures { OnOk result
            (bytes_under self.now.files.held name.now ≡ option_copied bytes.entry) }
    {
        let file = shown(self.alloc, name.bytes(), 0)?;
        let words = match (bytes, self.held(name)) {
            (Some(bytes), Some(came)) => {
                if bytes == came {
                    return Ok(());
                }
                difference(self.alloc, file.as_str(), bytes, came)?
            }
            (None, None) => return Ok(()),
            (Some(_), None) => format!(in self.alloc;
                "{file}: a file is wanted, and none is there"
            )?,
            (None, Some(_)) => format!(in self.alloc;
                "{file}: no file is wanted, and one is there"
            )?,
        };
        Err(Stop::at(line, words))
    }
}
