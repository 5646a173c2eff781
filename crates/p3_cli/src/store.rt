//! Reading the inputs and writing the outputs.

ghost use Rattle.std.specs.Prelude.{◌≡◌, ◌≤◌, ◌∷◌, [], length, IfOk, IfErr, OnOk, IsTrue};
ghost use Rattle.p3_base.specs.Outside.{IsHeld, IsStored};
ghost use Rattle.p3_tree.specs.Commands.{limit_of};
ghost use Rattle.p3_cli.specs.Asked.{asked_input, asked_inputs};
ghost use Rattle.p3_cli.specs.Outcome.{ReadsAll, ReadFails, WriteFails};
ghost use Rattle.p3_cli.specs.Store.{AreStored, files as files_with, holding_all, writings};
ghost use Rattle.p3_cli.specs.Texts.{all_made, all_texts};

use crate::Ending;
use crate::files::limit_of;
use crate::request::Input;
use crate::texts::{Made, Texts};
use p3_base::{Files, ReadFault, Role, Word, WriteFault};
use std::alloc::Global;

/// Reads the inputs in order.
///
/// # Errors
///
/// The first that is not read, or has more bytes than its limit. And want of memory.
pub fn read_all<F: Files>(
    alloc: Global,
    files: &mut F,
    inputs: &[Input<'_>],
) -> Result<Texts, Ending>
    requires { IsTrue (F.seen files.old).is_sure
        → AreStored (F.seen files.old).held (asked_inputs inputs.now) }
    ensures ok { IfOk result (λ texts.
        ReadsAll (F.seen files.old).held (asked_inputs inputs.now) (all_texts texts)) }
    ensures err { IfErr result
        (ReadFails (F.seen files.old).held (asked_inputs inputs.now)
        (F.seen files.old).read_faults (F.seen files.new).read_faults) }
    ensures held_stays { (F.seen files.new).held ≡ (F.seen files.old).held }
    ensures read_faults_grow { (F.seen files.old).read_faults ≤ (F.seen files.new).read_faults }
    ensures write_faults_grow { (F.seen files.old).write_faults ≤ (F.seen files.new).write_faults }
{
    let mut texts = Texts::none(alloc);
    for input in inputs {
        match read_one(alloc, files, input) {
            Ok(text) => texts.put(input.role, text),
            Err(ending) => return Err(ending),
        }
    }
    Ok(texts)
}

/// Reads an input.
fn read_one<F: Files>(alloc: Global, files: &mut F, input: &Input<'_>) -> Result<Vec<u8>, Ending>
    requires { IsTrue (F.seen files.old).is_sure
        → IsStored (F.seen files.old).held input.now.name.now }
    ensures ok { IfOk result (λ text.
        IsHeld (F.seen files.old).held input.now.name.now text.items) }
    ensures within { IfOk result (λ text. length text.items ≤ limit_of input.now.role) }
    ensures err { IfErr result
        (ReadFails (F.seen files.old).held (asked_input input.now ∷ [])
        (F.seen files.old).read_faults (F.seen files.new).read_faults) }
    ensures held_stays { (F.seen files.new).held ≡ (F.seen files.old).held }
    ensures sure_stays { (F.seen files.new).is_sure ≡ (F.seen files.old).is_sure }
    ensures read_faults_grow { (F.seen files.old).read_faults ≤ (F.seen files.new).read_faults }
    ensures write_faults_grow { (F.seen files.old).write_faults ≤ (F.seen files.new).write_faults }
{
    let mut text = Vec::new(alloc);
    match files.read(alloc, input.name, limit_of(input.role), &mut text) {
        Ok(()) => Ok(text),
        Err(ReadFault::TooLong) => Err(Ending::TooLong(input.role)),
        Err(ReadFault::Failed) => Err(Ending::ReadFailed(input.role)),
        Err(ReadFault::NoMemory) => Err(Ending::OutOfMemory),
    }
}

/// Writes what is made to the files of these roles and names, in order.
pub(crate) fn write_all<F: Files>(
    alloc: Global,
    files: &mut F,
    roles: &[Role],
    names: &[Word],
    made: &Made,
) -> Result<(), Ending>
    requires { length roles.now ≡ length names.now }
    ensures ok { OnOk result ((F.seen files.new).held ≡ holding_all
        (writings (files_with roles.now names.now) (all_made made.now)) (F.seen files.old).held) }
    ensures err { IfErr result (WriteFails
        (writings (files_with roles.now names.now) (all_made made.now)) (F.seen files.old).held
        (F.seen files.new).held (F.seen files.old).write_faults (F.seen files.new).write_faults) }
    ensures read_faults_grow { (F.seen files.old).read_faults ≤ (F.seen files.new).read_faults }
    ensures write_faults_grow { (F.seen files.old).write_faults ≤ (F.seen files.new).write_faults }
{
    for (place, name) in names.iter().enumerate() {
        match files.write(alloc, name, made.of(roles[place])) {
            Ok(()) => {}
            Err(WriteFault::Failed) => return Err(Ending::WriteFailed(roles[place])),
            Err(WriteFault::NoMemory) => return Err(Ending::OutOfMemory),
        }
    }
    Ok(())
}
