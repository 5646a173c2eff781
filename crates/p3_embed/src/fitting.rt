//! The actions of a target that fit in a state.

ghost use Rattle.std.specs.Prelude.{◌≡◌, ◌<◌, ◌≤◌, length, slice_get, IfSome, IfNone, Some, None, true, false};
ghost use Rattle.p3_formula.specs.Forms.{truth};
ghost use Rattle.p3_formula.specs.Targets.{IsSized};
ghost use Rattle.p3_formula.specs.declared.target.TargetAction.{TargetAction};
ghost use Rattle.p3_embed.specs.Actions.{FitsAt, IsIndexed, NoneFits, NoneFitsAt, NoneFitsWithin};

use crate::actions::{Actions, copies_with};
use p3_formula::{Bits, Target, eval};

/// Whether the action at the place fits.
fn fits(target: &Target, state: &Bits, place: usize) -> bool
    requires place { place < length target.now.actions }
    requires sized { IsSized target.now }
    requires bits { length state.now ≡ length target.now.predicates }
    ensures { (action : TargetAction) → slice_get target.now.actions place ≡ Some action
        → result ≡ truth state.now action.pre }
{
    eval(&target.actions.items()[place].pre, state)
}

/// Whether the action at the place counts as no step and fits.
fn other_fits(actions: &Actions, target: &Target, state: &Bits, place: usize) -> bool
    requires place { place < length target.now.actions }
    requires indexed { IsIndexed target.now actions.now }
    requires sized { IsSized target.now }
    requires bits { length state.now ≡ length target.now.predicates }
    ensures fits { result ≡ true
        → FitsAt actions.now.counts.items target.now state.now None place }
    ensures none { result ≡ false
        → NoneFitsAt actions.now.counts.items target.now state.now None place }
{
    actions.counts[place].is_none() && fits(target, state, place)
}

/// The copy of the step that fits, if one does.
pub(crate) fn fitting_copy(
    actions: &Actions,
    target: &Target,
    state: &Bits,
    number: u32,
) -> Option<usize>
    requires indexed { IsIndexed target.now actions.now }
    requires sized { IsSized target.now }
    requires bits { length state.now ≡ length target.now.predicates }
    ensures some { IfSome result
        (FitsAt actions.now.counts.items target.now state.now (Some number)) }
    ensures none { IfNone result
        (NoneFits actions.now.counts.items target.now state.now (Some number)) }
{
    for copy in copies_with(actions.copies.as_slice(), number) {
        if fits(target, state, copy.place) {
            return Some(copy.place);
        }
    }
    None
}

/// The action at one of these places that counts as no step and fits, if one does.
fn fitting_within(
    actions: &Actions,
    target: &Target,
    state: &Bits,
    from: usize,
    end: usize,
) -> Option<usize>
    requires within { end ≤ length target.now.actions }
    requires indexed { IsIndexed target.now actions.now }
    requires sized { IsSized target.now }
    requires bits { length state.now ≡ length target.now.predicates }
    ensures some { IfSome result (FitsAt actions.now.counts.items target.now state.now None) }
    ensures none { IfNone result
        (NoneFitsWithin actions.now.counts.items target.now state.now None from end) }
{
    for place in from..end {
        if other_fits(actions, target, state, place) {
            return Some(place);
        }
    }
    None
}

/// The action that counts as no step and fits, if one does. It is looked for from a place on, and
/// then before it.
pub(crate) fn fitting_other(
    actions: &Actions,
    target: &Target,
    state: &Bits,
    from: usize,
) -> Option<usize>
    requires indexed { IsIndexed target.now actions.now }
    requires sized { IsSized target.now }
    requires bits { length state.now ≡ length target.now.predicates }
    ensures some { IfSome result (FitsAt actions.now.counts.items target.now state.now None) }
    ensures none { IfNone result
        (NoneFits actions.now.counts.items target.now state.now None) }
{
    let end = target.actions.len();
    let from = from.min(end);
    match fitting_within(actions, target, state, from, end) {
        Some(place) => Some(place),
        None => fitting_within(actions, target, state, 0, from),
    }
}
