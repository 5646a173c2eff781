//! `pddl3why`: the words of the command line, the files of the machine and its standard output, handed
//! to the top call.
#![tactic(auto)]

use p3_base::{RealFiles, RealSink};
use p3_reports::put_no_memory;
use p3_why::why;
use p3_words::given_words;
use std::process::ExitCode;

/// The status of want of memory.
const OUT_OF_MEMORY: u8 = 5;

fn main(rt: HostRuntime) -> ExitCode {
    let alloc = rt.alloc();
    let mut out = RealSink::new(&rt);
    let Ok(words) = given_words(&rt, alloc) else {
        // The status says it where the line is not put.
        let _ = put_no_memory(&mut out);
        return ExitCode::from(OUT_OF_MEMORY);
    };
    let mut files = RealFiles::new(&rt);
    ExitCode::from(why(alloc, words.as_slice(), &mut files, &mut out))
}
