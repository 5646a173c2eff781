//! What the words of the command line ask for.

ghost use Rattle.std.specs.Prelude.{◌≡◌, IfOk};
ghost use Rattle.std.specs.List.{list_all};
ghost use Rattle.std.specs.Option.{option_map};
ghost use Rattle.p3_tree.specs.Commands.{is_file_word};
ghost use Rattle.p3_cli.specs.Asked.{asked_inputs};
ghost use Rattle.p3_why.specs.Asked.{asking_in, asking_of, if_named, inputs_of};

use crate::asking::Asking;
use crate::question::{Question, question_of, roles_of};
use p3_base::{NoMemory, Word};
use p3_cli::Input;
use std::alloc::Global;

/// Tells whether a word can name a file.
fn is_file_word(word: &Word) -> bool
    ensures { result ≡ is_file_word word.now }
{
    !word.bytes().is_empty()
}

/// Tells whether all words can name files.
fn are_file_words(words: &[Word]) -> bool
    ensures { result ≡ list_all is_file_word words.now }
{
    words.iter().all(is_file_word)
}

/// Reads what the words ask for, or `None` where they have no listed shape. It takes no memory.
pub(crate) fn asked(words: &[Word]) -> Option<Asking<'_>>
    ensures { option_map asking_in result ≡ asking_of words.now }
{
    let [word, names @ ..] = words else {
        return None;
    };
    asked_of(question_of(word.bytes())?, names)
}

/// Makes the question of these files.
fn asked_of(question: Question, names: &[Word]) -> Option<Asking<'_>>
    ensures { option_map asking_in result ≡ if_named names.now question }
{
    if names.len() != roles_of(question).len() {
        return None;
    }
    if are_file_words(names) {
        Some(Asking { question, names })
    } else {
        None
    }
}

impl<'a> Asking<'a> {
    /// Lists the files that are read, in the order of the command line.
    pub(crate) fn inputs(&self, alloc: Global) -> Result<Vec<Input<'a>>, NoMemory>
        ensures { IfOk result (λ all. asked_inputs all.items ≡ inputs_of (asking_in self.now)) }
    {
        let names = self.names;
        let roles = roles_of(self.question);
        let mut inputs = Vec::new(alloc);
        for (place, name) in names.iter().enumerate() {
            inputs.push(Input {
                role: roles[place],
                name,
            })?;
        }
        Ok(inputs)
    }
}
