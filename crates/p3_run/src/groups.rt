//! Operators in groups that are satisfied where each of theirs is.

ghost use Rattle.std.specs.Prelude.{◌≡◌, ◌+◌, ◌^◌, ◌<◌, ◌≤◌, Bool, true, false, if◌then◌else◌, ◌∷◌, [], length, position, not, map, IfOk};
ghost use Rattle.p3_formula.specs.Conditions.{HasAtomsBelow};
ghost use Rattle.p3_formula.specs.Modals.{IsModalBelow};
ghost use Rattle.p3_run.specs.Groups as watched;
ghost use Rattle.p3_run.specs.Groups.{AreModalsBelow, AreNamedBelow, CanRenew, IsReader, IsCounted};
ghost use Rattle.p3_run.specs.Stages.{stage_of};
ghost use Rattle.p3_run.specs.Tallies.{CanAdd, CanRemove, recounted};
ghost use Rattle.std.specs.List.{All};

use crate::modals::modal_at;
use crate::readers::OperatorReader;
use crate::stages::{Stage, fresh, next};
use crate::tallies::Tally;
use p3_base::NoMemory;
use p3_formula::{Bits, GroundModal, GroundTask};
use std::alloc::Global;
use std::marker::Model;

/// The operators of the hard constraints, or those of an instance of a preference.
#[derive(Drop)]
pub(crate) struct Group {
    name: Option<u32>,
    stages: Vec<Stage>,
    unmet: usize,
}

impl Model for Group {
    ghost use Rattle.std.specs.Prelude.{◌≡◌};
    ghost use Rattle.p3_run.specs.Groups.{Watch, unmet_in};

    ghost Value = { Watch };

    ghost view = { λ group. record { name = group.name; stages = group.stages.items } };

    ghost invariant = { λ group. group.unmet ≡ unmet_in group.stages.items };
}

impl Group {
    /// The operators in the first state.
    fn begin(
        alloc: Global,
        name: Option<u32>,
        modals: &[GroundModal],
        state: &Bits,
    ) -> Result<Group, NoMemory>
        requires { AreModalsBelow (length state.now) modals.now }
        ensures { IfOk result (λ begun. begun ≡ watched.watch_of (state.now ∷ []) name modals.now) }
    {
        let mut stages = Vec::new(alloc);
        let mut unmet = 0;
        for modal in modals {
            let stage = first_stage(modal, state);
            if !stage.accepts {
                unmet += 1;
            }
            stages.push(stage)?;
        }
        Ok(Group {
            name,
            stages,
            unmet,
        })
    }

    /// Whether each operator is satisfied.
    pub(crate) fn is_met(&self) -> bool
        ensures { result ≡ watched.is_met self.now.stages }
    {
        self.unmet == 0
    }

    /// The number of the name, where it has one.
    fn name(&self) -> Option<u32>
        ensures { result ≡ self.now.name }
    {
        self.name
    }

    /// The operator at the place is in one state more.
    fn renew(&mut self, place: usize, modal: &GroundModal, state: &Bits)
        requires within { place < length self.old.stages }
        requires below { IsModalBelow (length state.now) modal.now }
        ensures { self.new ≡ watched.renewed state.now modal.now self.old place }
    {
        let stage = self.stages[place];
        let later = next(modal, state, stage);
        self.stages[place] = later;
        self.unmet = unmet_after(self.unmet, stage.accepts, later.accepts);
    }

    /// The least place of an operator that is not satisfied. Where there is none, none is sought.
    #[tactic(auto, using(crate::proofs::UnmetLaws::none_unmet))]
    pub(crate) fn first_unmet(&self) -> Option<usize>
        ensures { result ≡ position watched.rejects self.now.stages }
    {
        if self.unmet == 0 {
            return None;
        }
        self.stages.iter().position(|stage| !stage.accepts)
    }
}

/// The operator in the first state.
#[tactic(auto, using(crate::proofs::StageLaws::stage_begins))]
fn first_stage(modal: &GroundModal, state: &Bits) -> Stage
    requires { IsModalBelow (length state.now) modal.now }
    ensures { result ≡ stage_of (state.now ∷ []) modal.now }
{
    next(modal, state, fresh(modal))
}

/// The count of those that are not satisfied, of which one was or was not and now is or is not.
fn unmet_after(count: usize, was: bool, is: bool) -> usize
    requires some { was ≡ false → 0 < count }
    requires room { count + 1 < 2 ^ 64 }
    ensures { result + (if was then 0 else 1) ≡ count + (if is then 0 else 1) }
{
    match (was, is) {
        (true, false) => count + 1,
        (false, true) => count - 1,
        _ => count,
    }
}

/// The groups of a task in its initial state.
pub(crate) fn groups_of(alloc: Global, task: &GroundTask) -> Result<Vec<Group>, NoMemory>
    requires below { HasAtomsBelow task.now }
    requires bits { length task.now.initial ≡ task.now.atoms }
    ensures { IfOk result (λ groups.
        groups.items ≡ watched.watches_of (task.now.initial ∷ []) task.now) }
{
    let mut groups = Vec::new(alloc);
    groups.push(Group::begin(alloc, None, task.hard.items(), &task.initial)?)?;
    for soft in task.soft.items() {
        groups.push(Group::begin(alloc, soft.name, soft.parts.items(), &task.initial)?)?;
    }
    Ok(groups)
}

/// The counters follow a group of that name that was or was not satisfied, and now is or is not.
fn recount(tally: &mut Tally, by_name: &[u64], name: Option<u32>, was: bool, is: bool)
    requires more { was ≡ true → is ≡ false → CanAdd by_name.now name tally.old }
    requires less { was ≡ false → is ≡ true → CanRemove by_name.now name tally.old }
    ensures { tally.new ≡ recounted by_name.now name was is tally.old }
{
    match (was, is) {
        (true, false) => tally.add(name, by_name),
        (false, true) => tally.remove(name, by_name),
        _ => (),
    }
}

/// A group of a name that was or was not satisfied, and now is or is not.
#[derive(Clone, Copy, Drop)]
struct Turn {
    name: Option<u32>,
    was: bool,
    is: bool,
}

/// The operator at a place of a group is in one state more.
fn turned(
    groups: &mut Vec<Group>,
    modal: &GroundModal,
    state: &Bits,
    reader: OperatorReader,
) -> Turn
    requires group { reader.group < length groups.old.items }
    requires place { reader.place
        < length (watched.watch_at groups.old.items reader.group).stages }
    requires below { IsModalBelow (length state.now) modal.now }
    ensures groups { groups.new.items
        ≡ watched.put_renewed modal.now state.now groups.old.items reader }
    ensures name { result.name ≡ (watched.watch_at groups.old.items reader.group).name }
    ensures was { result.was
        ≡ watched.is_met (watched.watch_at groups.old.items reader.group).stages }
    ensures is { result.is
        ≡ watched.is_met (watched.later modal.now state.now groups.old.items reader).stages }
{
    let group = &mut groups[reader.group];
    let name = group.name();
    let was = group.is_met();
    group.renew(reader.place, modal, state);
    let is = group.is_met();
    Turn { name, was, is }
}

/// The operator that reads is in one state more, and the counters follow.
fn renew_at(
    groups: &mut Vec<Group>,
    tally: &mut Tally,
    task: &GroundTask,
    by_name: &[u64],
    state: &Bits,
    reader: OperatorReader,
)
    requires can { CanRenew task.now by_name.now state.now groups.old.items tally.old }
    requires reader { IsReader task.now reader }
    ensures groups { groups.new.items
        ≡ watched.renewed_at task.now state.now groups.old.items reader }
    ensures can { CanRenew task.now by_name.now state.now groups.new.items tally.new }
{
    let modal = modal_at(task, reader);
    let turn = turned(groups, modal, state, reader);
    recount(tally, by_name, turn.name, turn.was, turn.is);
}

/// The operators of a list are in one state more.
pub(crate) fn renew_all(
    groups: &mut Vec<Group>,
    tally: &mut Tally,
    task: &GroundTask,
    by_name: &[u64],
    state: &Bits,
    readers: &[OperatorReader],
)
    requires can { CanRenew task.now by_name.now state.now groups.old.items tally.old }
    requires readers { All (IsReader task.now) readers.now }
    ensures groups { groups.new.items
        ≡ watched.renewed_all task.now state.now groups.old.items readers.now }
    ensures can { CanRenew task.now by_name.now state.now groups.new.items tally.new }
{
    for reader in readers {
        renew_at(groups, tally, task, by_name, state, *reader);
    }
}

/// The counters of groups.
pub(crate) fn tally_of(alloc: Global, by_name: &[u64], groups: &[Group]) -> Result<Tally, NoMemory>
    requires named { AreNamedBelow (length by_name.now) groups.now }
    requires few { length groups.now ≤ 100001 }
    ensures { IfOk result (IsCounted by_name.now groups.now) }
{
    let mut tally = Tally::new(alloc, by_name.len())?;
    for group in groups {
        let is = group.is_met();
        recount(&mut tally, by_name, group.name(), true, is);
    }
    Ok(tally)
}
