//! The marks of all operators of a task.

ghost use Rattle.std.specs.Prelude.{◌≡◌, ◌<◌, ◌≤◌, ◌∷◌, [], ◌++◌, IfOk, IsTrue, OnOk, length};
ghost use Rattle.std.specs.List.{All, list_all};
ghost use Rattle.p3_base.specs.Limits.{instance_limit};
ghost use Rattle.p3_formula.specs.Conditions.{HasAtomsBelow};
ghost use Rattle.p3_formula.specs.Modals.{IsModalBelow};
ghost use Rattle.p3_formula.specs.Targets.{is_sized_change};
ghost use Rattle.p3_marks.specs.Marked as marked;
ghost use Rattle.p3_marks.specs.Marked.{CanMark};
ghost use Rattle.p3_run.specs.Groups as run;
ghost use Rattle.p3_run.specs.Groups.{IsReader};
ghost use Rattle.p3_run.specs.Readers.{AreReaders, readers_at};

use crate::group::Group;
use crate::reasons::{Owner, push_reasons};
use p3_base::{List, NoMemory, Reason, as_number};
use p3_formula::{Bits, Change, GroundModal, GroundTask};
use p3_run::{OperatorReader, Pending, modal_at, modals_at, readers_of};
use std::alloc::Global;
use std::marker::Model;

/// The marks of all operators of a task, and for each atom the operators that read it.
#[derive(Drop)]
pub struct OperatorMarks {
    readers: Vec<List<OperatorReader>>,
    // The atoms of a step whose readers have still to follow.
    pending: Pending,
    // Those of the hard constraints, and behind them those of each instance.
    groups: Vec<Group>,
}

impl Model for OperatorMarks {
    ghost use Rattle.p3_marks.specs.Marked.{Marked};

    ghost Value = { Marked };

    ghost view = { λ marks. record {
      readers = marks.readers.items;
      groups = marks.groups.items;
    } };
}

impl OperatorMarks {
    /// The marks in the first state. It takes all memory that following needs.
    ///
    /// # Errors
    ///
    /// Want of memory.
    pub fn open(alloc: Global, task: &GroundTask) -> Result<OperatorMarks, NoMemory>
        requires below { HasAtomsBelow task.now }
        requires bits { length task.now.initial ≡ task.now.atoms }
        requires few { length task.now.soft ≤ instance_limit }
        ensures { IfOk result (marked.AreMarks task.now (task.now.initial ∷ [])) }
    {
        let readers = readers_of(alloc, task)?;
        let pending = Pending::of(alloc, task.atoms)?;
        let groups = groups_of(alloc, task)?;
        Ok(OperatorMarks {
            readers,
            pending,
            groups,
        })
    }

    /// The operators that read an atom which a change names are in one state more, at the next
    /// place.
    pub fn follow(&mut self, task: &GroundTask, effects: &[Change], state: &Bits, next: u32)
        requires can { marked.CanFollow task.now self.old }
        requires bits { length state.now ≡ task.now.atoms }
        requires sized { IsTrue (list_all (is_sized_change (length state.now)) effects.now) }
        ensures { self.new ≡ marked.followed task.now next state.now effects.now self.old }
    {
        follow_all(
            &mut self.groups,
            task,
            self.readers.as_slice(),
            &mut self.pending,
            effects,
            state,
            next,
        );
    }

    /// The reasons that the marks show of so many states: those of the hard constraints, and those of
    /// the operators of the instances.
    ///
    /// # Errors
    ///
    /// Want of memory.
    pub fn reasons(
        &self,
        alloc: Global,
        task: &GroundTask,
        count: u32,
    ) -> Result<List<Reason>, NoMemory>
        requires can { marked.CanFollow task.now self.now }
        requires some { 1 ≤ count }
        ensures { IfOk result
            (λ found. found ≡ marked.shown_all task.now count self.now.groups) }
    {
        all_reasons(alloc, task, self.groups.as_slice(), count)
    }
}

/// The marks of all groups in the first state.
fn groups_of(alloc: Global, task: &GroundTask) -> Result<Vec<Group>, NoMemory>
    requires below { HasAtomsBelow task.now }
    requires bits { length task.now.initial ≡ task.now.atoms }
    ensures { IfOk result (λ groups. groups.items ≡ marked.all_begun task.now) }
{
    let mut groups = Vec::new(alloc);
    groups.push(Group::begin(alloc, task.hard.items(), &task.initial)?)?;
    for soft in task.soft.items() {
        groups.push(Group::begin(alloc, soft.parts.items(), &task.initial)?)?;
    }
    Ok(groups)
}

/// The operator at a place of a group is in one state more.
fn renew_one(
    groups: &mut Vec<Group>,
    modal: &GroundModal,
    state: &Bits,
    next: u32,
    reader: OperatorReader,
)
    requires group { reader.group < length groups.old.items }
    requires place { reader.place < length (marked.group_at groups.old.items reader.group) }
    requires below { IsModalBelow (length state.now) modal.now }
    ensures { groups.new.items
        ≡ marked.put_renewed modal.now next state.now groups.old.items reader }
{
    let group = &mut groups[reader.group];
    group.renew(reader.place, modal, state, next);
}

/// The operator that reads is in one state more.
fn renew_at(
    groups: &mut Vec<Group>,
    task: &GroundTask,
    state: &Bits,
    next: u32,
    reader: OperatorReader,
)
    requires can { CanMark task.now groups.old.items }
    requires bits { length state.now ≡ task.now.atoms }
    requires reader { IsReader task.now reader }
    ensures groups { groups.new.items
        ≡ marked.renewed_at task.now next state.now groups.old.items reader }
    ensures can { CanMark task.now groups.new.items }
{
    let modal = modal_at(task, reader);
    renew_one(groups, modal, state, next, reader);
}

/// The operators of a list are in one state more.
fn renew_all(
    groups: &mut Vec<Group>,
    task: &GroundTask,
    readers: &[OperatorReader],
    state: &Bits,
    next: u32,
)
    requires can { CanMark task.now groups.old.items }
    requires bits { length state.now ≡ task.now.atoms }
    requires readers { All (IsReader task.now) readers.now }
    ensures groups { groups.new.items
        ≡ marked.renewed_all task.now next state.now groups.old.items readers.now }
    ensures can { CanMark task.now groups.new.items }
{
    for reader in readers {
        renew_at(groups, task, state, next, *reader);
    }
}

/// The operators that read the atom are in one state more.
fn follow_atom(
    groups: &mut Vec<Group>,
    task: &GroundTask,
    readers: &[List<OperatorReader>],
    atom: usize,
    state: &Bits,
    next: u32,
)
    requires can { CanMark task.now groups.old.items }
    requires bits { length state.now ≡ task.now.atoms }
    requires readers { AreReaders task.now readers.now }
    requires within { atom < length state.now }
    ensures groups { groups.new.items ≡ marked.renewed_all task.now next state.now
        groups.old.items (readers_at readers.now atom) }
    ensures can { CanMark task.now groups.new.items }
{
    renew_all(groups, task, readers[atom].items(), state, next);
}

/// The operators that read an atom which a change names are in one state more. Each atom is looked
/// at once, however many changes name it.
fn follow_all(
    groups: &mut Vec<Group>,
    task: &GroundTask,
    readers: &[List<OperatorReader>],
    pending: &mut Pending,
    effects: &[Change],
    state: &Bits,
    next: u32,
)
    requires can { CanMark task.now groups.old.items }
    requires bits { length state.now ≡ task.now.atoms }
    requires readers { AreReaders task.now readers.now }
    requires sized { IsTrue (list_all (is_sized_change (length state.now)) effects.now) }
    ensures groups { groups.new.items ≡ marked.renewed_all task.now next state.now
        groups.old.items (marked.named_by readers.now effects.now) }
    ensures can { CanMark task.now groups.new.items }
{
    pending.name_all(effects);
    for place in 0..effects.len() {
        let atom = effects[place].atom;
        if pending.take(atom) {
            follow_atom(groups, task, readers, atom, state, next);
        }
    }
}

/// Puts the reasons of the operators of a group.
fn push_group(
    reasons: &mut List<Reason>,
    owner: Owner,
    task: &GroundTask,
    groups: &[Group],
    group: usize,
    count: u32,
) -> Result<(), NoMemory>
    requires shape { marked.HasShape task.now groups.now }
    requires group { group < length (run.modals_of task.now) }
    requires some { 1 ≤ count }
    ensures { OnOk result (reasons.new ≡ reasons.old ++ marked.shown_reasons count
        (marked.group_at groups.now group) (marked.subject_by owner)
        (run.modals_at task.now group)) }
{
    push_reasons(
        reasons,
        owner,
        modals_at(task, group),
        &groups[group],
        count,
    )
}

/// The reasons of all operators.
fn all_reasons(
    alloc: Global,
    task: &GroundTask,
    groups: &[Group],
    count: u32,
) -> Result<List<Reason>, NoMemory>
    requires can { CanMark task.now groups.now }
    requires some { 1 ≤ count }
    ensures { IfOk result (λ found. found ≡ marked.shown_all task.now count groups.now) }
{
    let mut reasons = List::new(alloc);
    push_group(&mut reasons, Owner::Hard, task, groups, 0, count)?;
    for instance in 0..task.soft.len() {
        let number = as_number(instance)?;
        let owner = Owner::Soft(number);
        push_group(&mut reasons, owner, task, groups, instance + 1, count)?;
    }
    Ok(reasons)
}
