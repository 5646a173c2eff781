//! The top call over files and a sink that never fail.

ghost use Rattle.std.specs.Prelude.{◌≡◌, ◌≢◌, ◌↔◌, ◌⊎◌, IsTrue, None, Some};
ghost use Rattle.std.specs.List.{list_all};
ghost use Rattle.p3_tree.specs.Commands.{command_of};
ghost use Rattle.p3_cli.specs.Ending.{Ending, status_of};
ghost use Rattle.p3_cli.specs.Meaning.{IsDone, IsFaithfulRun};
ghost use Rattle.p3_cli.specs.Run.{AreHeld, Ends, IsAcceptedIn, IsRejectedIn};
ghost use Rattle.p3_cli.specs.Status as status;
ghost use Rattle.p3_cli.specs.Sure.{is_held, sure_files, sure_sink};

use crate::asking::asked;
use crate::run;
use p3_base::{SureFiles, SureSink, Word};
use std::alloc::Global;

/// Tells whether something is held under the name.
fn is_held(name: &Word, files: &SureFiles) -> bool
    ensures { result ≡ is_held files.now name.now }
{
    match files.bytes(name) {
        Some(_) => true,
        None => false,
    }
}

/// Tells whether something is held under each of the names.
fn are_all_held(names: &[Word], files: &SureFiles) -> bool
    ensures { result ≡ list_all (is_held files.now) names.now }
{
    names.iter().all(|name| is_held(name, files))
}

/// Tells whether each input that the words name is held, as `run_sure` wants it.
pub fn are_held(words: &[Word], files: &SureFiles) -> bool
    ensures { IsTrue result ↔ AreHeld (command_of words.now) (Some files.now) }
{
    match asked(words) {
        Some(request) => are_all_held(request.reads, files),
        None => true,
    }
}

/// Does what the words ask for with files and a sink that never fail, and answers the status of the
/// process: as `run`, but never 3, 4 or 6.
pub fn run_sure(alloc: Global, words: &[Word], files: &mut SureFiles, out: &mut SureSink) -> u8
    // Every input that the words name is held.
    requires held { AreHeld (command_of words.now) (Some files.old) }

    ensures usage { (result ≡ status.usage) ↔ (command_of words.now ≡ None) }

    // No failure of the outside comes.
    ensures read { result ≢ status.unread }
    ensures written { result ≢ status.unwritten }
    ensures put { result ≢ status.unput }

    // What is accepted is done, and what is refused or not valid is told, but for want of memory.
    ensures completes { IsAcceptedIn (command_of words.now) files.old
        → (result ≡ status.done) ⊎ (result ≡ status.out_of_memory) }
    ensures rejects { (how : Ending) → IsRejectedIn (command_of words.now) files.old how
        → (result ≡ status_of how) ⊎ (result ≡ status.out_of_memory) }

    // A done run leaves a faithful translation of the task that it read.
    ensures faithful { IsDone result → IsFaithfulRun (command_of words.now)
        (sure_files files.old) (sure_files files.new) sure_sink sure_sink result }

    // What is left in the files is what the ending says.
    ensures ending { (how : Ending) × Ends (command_of words.now)
        (sure_files files.old) (sure_files files.new) sure_sink sure_sink result how }
{
    run(alloc, words, files, out)
}
