//! A walk through a target, one action after another.

ghost use Rattle.std.specs.Prelude.{◌≡◌, ◌<◌, ◌&&◌, not, if◌then◌else◌, length, map, slice_set, IfOk, OnOk, IsTrue};
ghost use Rattle.std.specs.List.{list_all};
ghost use Rattle.p3_formula.specs.Forms.{State, truth};
ghost use Rattle.p3_formula.specs.Next as made;
ghost use Rattle.p3_formula.specs.Targets.{IsSized, is_sized_change};
ghost use Rattle.p3_formula.specs.declared.form.Change.{Change};
ghost use Rattle.p3_embed.specs.Walking.{HasTaken, IsBegun, IsCheap};

use p3_base::NoMemory;
use p3_formula::{Bits, Change, Target, eval};
use std::alloc::Global;

/// How far a walk has come.
#[derive(Drop)]
pub(crate) struct EmbeddingWalk {
    /// The state that the actions lead to.
    pub(crate) state: Bits,
    /// The places of the actions.
    pub(crate) places: Vec<usize>,
    /// What they cost.
    pub(crate) cost: u128,
}

/// A walk before the first action.
pub(crate) fn begun(alloc: Global, target: &Target) -> Result<EmbeddingWalk, NoMemory>
    ensures { IfOk result (IsBegun target.now) }
{
    Ok(EmbeddingWalk {
        state: target.initial.copied(alloc)?,
        places: Vec::new(alloc),
        cost: 0,
    })
}

/// Whether the conditions of the changes hold.
fn conditions(alloc: Global, state: &Bits, changes: &[Change]) -> Result<Vec<bool>, NoMemory>
    requires { IsTrue (list_all (is_sized_change (length state.now)) changes.now) }
    ensures { IfOk result (λ holding. holding.items
        ≡ map (λ (change : Change). truth state.now change.cond) changes.now) }
{
    let mut holding = Vec::with_capacity(alloc, changes.len())?;
    for change in changes {
        holding.push(eval(&change.cond, state))?;
    }
    Ok(holding)
}

/// Makes the change where it is an add, or else a delete, and its condition holds.
fn make(state: &mut Bits, change: &Change, holds: bool, add: bool)
    ensures { state.new ≡ (if (if add then change.now.add else not change.now.add) && holds
        then slice_set state.old change.now.atom add else state.old) }
{
    if (if add { change.add } else { !change.add }) && holds && change.atom < state.count() {
        state.set(change.atom, add);
    }
}

/// Makes the adds, or else the deletes, whose conditions hold.
fn make_all(state: &mut Bits, holding: &[bool], changes: &[Change], add: bool)
    requires { length changes.now ≡ length holding.now }
    ensures { (before : State)
        → holding.now ≡ map (λ (change : Change). truth before change.cond) changes.now
        → state.new ≡ made.changed_all add before state.old changes.now }
{
    for place in 0..changes.len() {
        make(state, &changes[place], holding[place], add);
    }
}

/// Makes all changes at once, in place: an add wins over a delete, and every condition is read in
/// the state before.
fn change_state(alloc: Global, state: &mut Bits, changes: &[Change]) -> Result<(), NoMemory>
    requires { IsTrue (list_all (is_sized_change (length state.old)) changes.now) }
    ensures { OnOk result (state.new ≡ made.after state.old changes.now) }
{
    let holding = conditions(alloc, state, changes)?;
    make_all(state, holding.as_slice(), changes, false);
    make_all(state, holding.as_slice(), changes, true);
    Ok(())
}

/// Takes the action at the place.
pub(crate) fn take(
    alloc: Global,
    target: &Target,
    walk: &mut EmbeddingWalk,
    place: usize,
) -> Result<(), NoMemory>
    requires place { place < length target.now.actions }
    requires sized { IsSized target.now }
    requires bits { length walk.old.state ≡ length target.now.predicates }
    requires cheap { IsCheap walk.old }
    ensures { OnOk result (HasTaken target.now place walk.old walk.new) }
{
    let action = &target.actions.items()[place];
    change_state(alloc, &mut walk.state, action.effects.items())?;
    walk.places.push(place)?;
    walk.cost += u128::from(action.cost);
    Ok(())
}
