//! The names of a target's atoms: a letter and a number.

ghost use Rattle.std.specs.Prelude.{◌≡◌, ◌≤◌, length, IfOk, OnOk};
ghost use Rattle.std.specs.Str.{str_to_ascii_lowercase};
ghost use Rattle.p3_compile.specs.Monitored.{named_more};
ghost use Rattle.p3_simulation.specs.Naming.{numbered};

use itoa::Buffer;
use p3_base::{List, Name, NoMemory};
use std::alloc::Global;

/// The bytes of a letter and a number.
fn numbered_text(alloc: Global, letter: &str, number: usize) -> Result<Vec<u8>, NoMemory>
    ensures { IfOk result (λ text. text.items ≡ numbered letter.now number) }
{
    let mut text = Vec::with_capacity(alloc, 24)?;
    text.extend_from_slice(letter.as_bytes())?;
    text.extend_from_slice(Buffer::new().format(number).as_bytes())?;
    Ok(text)
}

/// The name of an atom.
#[tactic(auto, using(crate::proofs::NumberedNames::lowered_numbered))]
pub(crate) fn numbered(alloc: Global, letter: &str, number: usize) -> Result<Name, NoMemory>
    requires { str_to_ascii_lowercase letter.now ≡ letter.now }
    ensures { IfOk result (λ name. name ≡ numbered letter.now number) }
{
    let text = numbered_text(alloc, letter, number)?;
    Name::of(alloc, &text)
}

/// So many names more. Their numbers are their places behind some names that come before.
pub(crate) fn push_numbered(
    alloc: Global,
    names: &mut List<Name>,
    letter: &str,
    before: usize,
    count: usize,
) -> Result<(), NoMemory>
    requires letter { str_to_ascii_lowercase letter.now ≡ letter.now }
    requires before { before ≤ length names.old }
    ensures { OnOk result (names.new ≡ named_more letter.now before names.old count) }
{
    for _ in 0..count {
        let number = names.len() - before;
        names.push(numbered(alloc, letter, number)?)?;
    }
    Ok(())
}
