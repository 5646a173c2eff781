//! Runs the worked rows that lie in the folder, and prints how many of them hold.
#![tactic(auto)]

use p3_test_sheets::all_hold;
use std::process::ExitCode;

fn main(rt: HostRuntime) -> ExitCode {
    match all_hold(&rt) {
        Some(true) => ExitCode::SUCCESS,
        Some(false) => ExitCode::FAILURE,
        None => {
            let _ = println!(rt; "the files were not read, or memory is wanting");
            ExitCode::FAILURE
        }
    }
}
