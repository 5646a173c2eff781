//! The changes of a step, made in place.

ghost use Rattle.std.specs.Prelude.{◌≡◌, ◌<◌, ◌≤◌, ◌&&◌, not, if◌then◌else◌, length, map, take, slice_set, IsTrue};
ghost use Rattle.std.specs.List.{All, list_all};
ghost use Rattle.p3_formula.specs.Forms.{State};
ghost use Rattle.p3_formula.specs.Next as made;
ghost use Rattle.p3_formula.specs.Targets.{is_sized_change};
ghost use Rattle.p3_run.specs.Changing.{found_in, differ, touched_at, touched};
ghost use Rattle.p3_run.specs.Groups.{CanRenew, renewed_all};
ghost use Rattle.p3_run.specs.Readers.{AreReaders};

use crate::groups::{Group, renew_all};
use crate::pending::Pending;
use crate::readers::OperatorReader;
use crate::tallies::Tally;
use p3_base::List;
use p3_formula::{Bits, Change, GroundTask, eval};

/// What a change finds in the state before.
#[derive(Clone, Copy, Drop)]
pub(crate) struct ChangeFound {
    /// Whether its condition holds.
    pub(crate) made: bool,
    /// Whether its atom is set.
    pub(crate) set: bool,
}

/// What the change finds in the state.
fn look(change: &Change, state: &Bits) -> ChangeFound
    requires { IsTrue (is_sized_change (length state.now) change.now) }
    ensures { result ≡ found_in state.now change.now }
{
    ChangeFound {
        made: eval(&change.cond, state),
        set: state.get(change.atom),
    }
}

/// What all changes find.
fn find_all(all: &mut Vec<ChangeFound>, state: &Bits, effects: &[Change])
    requires room { length effects.now ≤ length all.old.items }
    requires sized { IsTrue (list_all (is_sized_change (length state.now)) effects.now) }
    ensures found { take (length effects.now) all.new.items ≡ map (found_in state.now) effects.now }
    ensures room { length all.new.items ≡ length all.old.items }
{
    for place in 0..effects.len() {
        all[place] = look(&effects[place], state);
    }
}

/// Makes the change where it is an add, or else a delete, and its condition holds.
fn make(state: &mut Bits, change: &Change, holds: bool, add: bool)
    ensures { state.new ≡ (if (if add then change.now.add else not change.now.add) && holds
        then slice_set state.old change.now.atom add else state.old) }
{
    if (if add { change.add } else { !change.add }) && holds && change.atom < state.count() {
        state.set(change.atom, add);
    }
}

/// Makes the adds, or else the deletes, whose conditions hold.
fn make_all(state: &mut Bits, all: &[ChangeFound], effects: &[Change], add: bool)
    requires { length effects.now ≤ length all.now }
    ensures { (before : State)
        → take (length effects.now) all.now ≡ map (found_in before) effects.now
        → state.new ≡ made.changed_all add before state.old effects.now }
{
    for place in 0..effects.len() {
        make(state, &effects[place], all[place].made, add);
    }
}

/// Makes all changes at once: an add wins over a delete, and every condition is read in the state
/// before.
#[tactic(auto, using(p3_formula::proofs::StepLaws::made_one_by_one))]
pub(crate) fn change_state(state: &mut Bits, all: &mut Vec<ChangeFound>, effects: &[Change])
    requires room { length effects.now ≤ length all.old.items }
    requires sized { IsTrue (list_all (is_sized_change (length state.old)) effects.now) }
    ensures state { state.new ≡ made.after state.old effects.now }
    ensures found { take (length effects.now) all.new.items ≡ map (found_in state.old) effects.now }
    ensures room { length all.new.items ≡ length all.old.items }
{
    find_all(all, state, effects);
    make_all(state, all.as_slice(), effects, false);
    make_all(state, all.as_slice(), effects, true);
}

/// Whether the two differ.
fn is_other(one: bool, other: bool) -> bool
    ensures { result ≡ differ one other }
{
    if one { !other } else { other }
}

/// The operators that read the atom follow where it has changed.
fn follow_atom(
    groups: &mut Vec<Group>,
    tally: &mut Tally,
    task: &GroundTask,
    by_name: &[u64],
    state: &Bits,
    readers: &[List<OperatorReader>],
    set: bool,
    atom: usize,
)
    requires can { CanRenew task.now by_name.now state.now groups.old.items tally.old }
    requires readers { AreReaders task.now readers.now }
    requires within { atom < length state.now }
    ensures groups { groups.new.items ≡ renewed_all task.now state.now groups.old.items
        (touched_at readers.now state.now set atom) }
    ensures can { CanRenew task.now by_name.now state.now groups.new.items tally.new }
{
    if is_other(state.get(atom), set) {
        renew_all(groups, tally, task, by_name, state, readers[atom].items());
    }
}

/// The operators that read an atom that has changed follow, once however many changes name it.
pub(crate) fn follow(
    groups: &mut Vec<Group>,
    tally: &mut Tally,
    task: &GroundTask,
    by_name: &[u64],
    state: &Bits,
    readers: &[List<OperatorReader>],
    pending: &mut Pending,
    all: &[ChangeFound],
    effects: &[Change],
)
    requires can { CanRenew task.now by_name.now state.now groups.old.items tally.old }
    requires readers { AreReaders task.now readers.now }
    requires room { length effects.now ≤ length all.now }
    requires sized { IsTrue (list_all (is_sized_change (length state.now)) effects.now) }
    ensures groups { (before : State)
        → take (length effects.now) all.now ≡ map (found_in before) effects.now
        → groups.new.items ≡ renewed_all task.now state.now groups.old.items
        (touched readers.now before state.now effects.now) }
    ensures can { CanRenew task.now by_name.now state.now groups.new.items tally.new }
{
    pending.name_all(effects);
    for place in 0..effects.len() {
        let set = all[place].set;
        let atom = effects[place].atom;
        if pending.take(atom) {
            follow_atom(groups, tally, task, by_name, state, readers, set, atom);
        }
    }
}
