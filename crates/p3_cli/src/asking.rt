//! What the words of the command line ask for.

ghost use Rattle.std.specs.Prelude.{◌≡◌, ◌≤◌, IsTrue};
ghost use Rattle.std.specs.List.{list_all};
ghost use Rattle.std.specs.Option.{option_map};
ghost use Rattle.p3_base.specs.Words.{are_different as different, has_name};
ghost use Rattle.p3_tree.specs.Commands.{
  command_by,
  command_of,
  has_file_words,
  if_spelled,
  is_file_word,
  row as row_with,
  sample_limit,
};
ghost use Rattle.p3_cli.specs.Asked.{asked_command};

use crate::request::Request;
use crate::sample_number::sample_number;
use crate::table::{kind_of, row_of};
use p3_base::Word;
use p3_tree::CommandKind;

/// Reads what the words ask for, or `None` where they have no listed shape. It takes no memory.
pub(crate) fn asked(words: &[Word]) -> Option<Request<'_>>
    ensures { option_map asked_command result ≡ command_of words.now }
{
    let [word, others @ ..] = words else {
        return None;
    };
    command(kind_of(word.bytes())?, others)
}

/// Reads a command with the number and the names behind its word.
fn command(kind: CommandKind, words: &[Word]) -> Option<Request<'_>>
    ensures { option_map asked_command result ≡ command_by words.now kind }
{
    if !row_of(kind).is_numbered {
        return with_files(kind, 0, words);
    }
    let [number, names @ ..] = words else {
        return None;
    };
    with_files(kind, sample_number(number.bytes())?.number, names)
}

/// Makes the command with this number and the files of these names.
fn with_files(kind: CommandKind, number: u32, names: &[Word]) -> Option<Request<'_>>
    requires { IsTrue (row_with kind).is_numbered → (1 ≤ number) × (number ≤ sample_limit) }
    ensures { option_map asked_command result ≡ if_spelled kind (number, names.now) }
{
    let reads = row_of(kind).reads.len();
    if names.len() != reads + row_of(kind).writes.len() {
        return None;
    }
    let (reads, writes) = names.split_at(reads);
    let request = Request {
        kind,
        number,
        reads,
        writes,
    };
    if has_file_words(&request) {
        Some(request)
    } else {
        None
    }
}

/// Tells whether a word can name a file.
fn is_file_word(word: &Word) -> bool
    ensures { result ≡ is_file_word word.now }
{
    !word.bytes().is_empty()
}

/// Tells whether all words can name files.
fn are_file_words(words: &[Word]) -> bool
    ensures { result ≡ list_all is_file_word words.now }
{
    words.iter().all(is_file_word)
}

/// Tells whether the word is one of the words.
fn has_word(words: &[Word], word: &Word) -> bool
    ensures { result ≡ has_name words.now word.now }
{
    words.iter().any(|other| other.bytes() == word.bytes())
}

/// Tells whether no two of the words are the same.
fn are_different(words: &[Word]) -> bool
    ensures { result ≡ different words.now }
{
    match words {
        [] => true,
        [first, others @ ..] => !has_word(others, first) && are_different(others),
    }
}

/// Tells whether all names can name files, and no two outputs have the same name.
fn has_file_words(request: &Request<'_>) -> bool
    ensures { result ≡ has_file_words (asked_command request.now) }
{
    are_file_words(request.reads) && are_file_words(request.writes) && are_different(request.writes)
}
