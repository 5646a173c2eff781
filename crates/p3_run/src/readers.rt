//! Which operators read an atom.

ghost use Rattle.std.specs.Prelude.{◌≡◌, ◌+◌, ◌<◌, ◌≤◌, length, replicate, [], IfOk, OnOk};
ghost use Rattle.p3_base.specs.Limits.{instance_limit};
ghost use Rattle.p3_formula.specs.Conditions.{HasAtomsBelow};
ghost use Rattle.p3_run.specs.Groups.{modals_of};
ghost use Rattle.p3_formula.specs.AtomLists.{atoms_of, modal_atoms};
ghost use Rattle.p3_run.specs.Readers.{ends, with_reader, filed, filed_all, AreFiledTo, AreReaders};
ghost use Rattle.std.specs.List.{flat_map};

use crate::modals::{group_count, modals_at};
use p3_base::{List, NoMemory, Operands};
use p3_formula::{Form, GroundModal, GroundTask};
use std::alloc::Global;

/// The operator at a place of a group reads an atom.
#[derive(Clone, Copy, Debug, Drop)]
pub struct OperatorReader {
    /// The group.
    pub group: usize,
    /// The place.
    pub place: usize,
}

/// Whether the operator is the last of those.
fn ends(those: &[OperatorReader], reader: OperatorReader) -> bool
    ensures { result ≡ ends reader those.now }
{
    match those.last() {
        Some(last) => last.group == reader.group && last.place == reader.place,
        None => false,
    }
}

/// The operator stands behind those, once however often it reads an atom.
fn push_once(those: &mut List<OperatorReader>, reader: OperatorReader) -> Result<(), NoMemory>
    ensures { OnOk result (those.new ≡ with_reader reader those.old) }
{
    if !ends(those.items(), reader) {
        those.push(reader)?;
    }
    Ok(())
}

/// The operator reads the atom, where there is one of that number.
fn push_atom(
    readers: &mut Vec<List<OperatorReader>>,
    atom: usize,
    reader: OperatorReader,
) -> Result<(), NoMemory>
    ensures { OnOk result (readers.new.items ≡ filed reader readers.old.items atom) }
{
    if atom < readers.len() {
        let those = &mut readers[atom];
        push_once(those, reader)?;
    }
    Ok(())
}

/// The operator reads the atoms of the form.
#[cycle(atoms)]
#[tactic(auto, using(p3_formula::proofs::AtomLists::atoms_of_laws))]
fn push_form(
    readers: &mut Vec<List<OperatorReader>>,
    form: &Form,
    reader: OperatorReader,
) -> Result<(), NoMemory>
    ensures { OnOk result
        (readers.new.items ≡ filed_all reader readers.old.items (atoms_of form.now)) }
{
    match form {
        Form::True => Ok(()),
        Form::False => Ok(()),
        Form::Atom(atom) => push_atom(readers, *atom, reader),
        Form::Not(part) => push_form(readers, part.get(), reader),
        Form::And(parts) | Form::Or(parts) => push_forms(readers, parts.items(), reader),
    }
}

/// The operator reads the atoms of the forms.
#[cycle(atoms)]
fn push_forms(
    readers: &mut Vec<List<OperatorReader>>,
    forms: &[Form],
    reader: OperatorReader,
) -> Result<(), NoMemory>
    ensures { OnOk result
        (readers.new.items ≡ filed_all reader readers.old.items (flat_map atoms_of forms.now)) }
{
    for form in forms {
        push_form(readers, form, reader)?;
    }
    Ok(())
}

/// The operator reads the atoms of its formulas.
#[tactic(auto, using(p3_base::proofs::OperatorLaws::formulas_unary, p3_base::proofs::OperatorLaws::formulas_binary))]
fn push_modal(
    readers: &mut Vec<List<OperatorReader>>,
    modal: &GroundModal,
    reader: OperatorReader,
) -> Result<(), NoMemory>
    ensures { OnOk result
        (readers.new.items ≡ filed_all reader readers.old.items (modal_atoms modal.now)) }
{
    match modal.operands() {
        Operands::One(_, form) => push_form(readers, form, reader),
        Operands::Two(_, first, second) => {
            push_form(readers, first, reader)?;
            push_form(readers, second, reader)
        }
    }
}

/// The operators of a group read their atoms.
fn push_group(
    readers: &mut Vec<List<OperatorReader>>,
    task: &GroundTask,
    group: usize,
) -> Result<(), NoMemory>
    requires below { HasAtomsBelow task.now }
    requires within { group < length (modals_of task.now) }
    requires filed { AreFiledTo task.now group 0 readers.old.items }
    ensures { OnOk result (AreFiledTo task.now (group + 1) 0 readers.new.items) }
{
    let modals = modals_at(task, group);
    for place in 0..modals.len() {
        push_modal(readers, &modals[place], OperatorReader { group, place })?;
    }
    Ok(())
}

/// No operator reads an atom.
fn no_readers(alloc: Global, count: usize) -> Result<Vec<List<OperatorReader>>, NoMemory>
    ensures { IfOk result (λ readers. readers.items ≡ replicate count []) }
{
    let mut readers = Vec::new(alloc);
    for _ in 0..count {
        readers.push(List::new(alloc))?;
    }
    Ok(readers)
}

/// Files the operators by the atoms that they read: for each atom those that read it.
///
/// # Errors
///
/// Want of memory.
pub fn readers_of(alloc: Global, task: &GroundTask) -> Result<Vec<List<OperatorReader>>, NoMemory>
    requires below { HasAtomsBelow task.now }
    requires few { length task.now.soft ≤ instance_limit }
    ensures { IfOk result (λ readers. AreReaders task.now readers.items) }
{
    let mut readers = no_readers(alloc, task.atoms)?;
    for group in 0..group_count(task) {
        push_group(&mut readers, task, group)?;
    }
    Ok(readers)
}
