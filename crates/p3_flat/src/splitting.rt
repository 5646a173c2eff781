//! The copies of one action.

ghost use Rattle.std.specs.Prelude.{◌≡◌, ◌++◌, [], ◌∷◌, flat_map, length, IfOk, OnOk};
ghost use Rattle.p3_formula.specs.Simplified.{spread};
ghost use Rattle.p3_flat.specs.Copies.{AreCopiesOf};
ghost use Rattle.p3_flat.specs.Splitting.{AreCopies, AreCopiesIf, ArePlacedIn, IsConjunction, IsCopy, forms_in};

use crate::choices::{Choice, all_choices};
use crate::literals::literals_of;
use crate::naming::{copy_name, name_copied};
use crate::placing::{Placed, Placing, place_all};
use crate::settling::settled;
use p3_base::{List, NoMemory};
use p3_formula::{Form, TargetAction, copied, effects_copied, tidied};
use std::alloc::Global;

/// Tells how many parts the form is as a part of a conjunction.
fn width(form: &Form) -> usize
    ensures { result ≡ length (spread form.now) }
{
    match form {
        Form::True => 0,
        Form::And(parts) => parts.len(),
        Form::False | Form::Atom(_) | Form::Not(_) | Form::Or(_) => 1,
    }
}

/// Tells how many parts the precondition and all the parts are.
fn room(pre: &Form, parts: &[&Form]) -> usize {
    let mut room = width(pre);
    for part in parts {
        room = room.saturating_add(width(part));
    }
    room
}

/// Copies the forms behind the others.
fn push_copies(alloc: Global, forms: &mut Vec<Form>, more: &[Form]) -> Result<(), NoMemory>
    ensures { OnOk result (forms.new.items ≡ forms.old.items ++ more.now) }
{
    for form in more {
        forms.push(copied(alloc, form)?)?;
    }
    Ok(())
}

/// Copies what the form consists of as a part of a conjunction behind the others.
#[tactic(auto, using(p3_formula::proofs::SimplifiedLemmas::spread_laws))]
fn push_spread_copy(alloc: Global, forms: &mut Vec<Form>, form: &Form) -> Result<(), NoMemory>
    ensures { OnOk result (forms.new.items ≡ forms.old.items ++ spread form.now) }
{
    match form {
        Form::True => {}
        Form::False => forms.push(Form::False)?,
        Form::Atom(atom) => forms.push(Form::Atom(*atom))?,
        Form::And(parts) => push_copies(alloc, forms, parts.items())?,
        Form::Not(_) | Form::Or(_) => forms.push(copied(alloc, form)?)?,
    }
    Ok(())
}

/// Copies the forms, the precondition first, and in place of a conjunction its parts.
fn all_spread(alloc: Global, pre: &Form, parts: &[&Form]) -> Result<List<Form>, NoMemory>
    ensures { IfOk result (λ forms.
        forms ≡ spread pre.now ++ flat_map spread (forms_in parts.now)) }
{
    let mut forms = Vec::with_capacity(alloc, room(pre, parts))?;
    push_spread_copy(alloc, &mut forms, pre)?;
    for part in parts {
        push_spread_copy(alloc, &mut forms, part)?;
    }
    Ok(List::from(forms))
}

/// Makes a tidy form that holds where the precondition and all the parts do.
fn conjunction(alloc: Global, pre: &Form, parts: &[&Form]) -> Result<Form, NoMemory>
    ensures { IfOk result (IsConjunction pre.now (forms_in parts.now)) }
{
    let forms = all_spread(alloc, pre, parts)?;
    tidied(alloc, Form::And(forms))
}

/// Makes the copy of the action for a choice.
fn copy_of(
    alloc: Global,
    buffer: &mut Vec<u8>,
    action: &TargetAction,
    changes: &List<Placed>,
    choice: &Choice<'_>,
) -> Result<TargetAction, NoMemory>
    ensures { IfOk result (IsCopy action.now changes.now choice.now) }
{
    let name = copy_name(alloc, buffer, &action.name, choice.pattern.items())?;
    let pre = conjunction(alloc, &action.pre, choice.parts.items())?;
    let effects = settled(alloc, changes.items(), choice.pattern.items())?;
    let cost = action.cost;
    Ok(TargetAction {
        name,
        pre,
        effects,
        cost,
    })
}

/// Makes a copy of the action for each choice.
fn copies_by(
    alloc: Global,
    action: &TargetAction,
    changes: &List<Placed>,
    choices: &List<Choice<'_>>,
) -> Result<List<TargetAction>, NoMemory>
    ensures { IfOk result (AreCopies action.now changes.now choices.now) }
{
    let mut copies = Vec::with_capacity(alloc, choices.len())?;
    let mut buffer = Vec::new(alloc);
    for choice in choices.items() {
        copies.push(copy_of(alloc, &mut buffer, action, changes, choice)?)?;
    }
    Ok(List::from(copies))
}

/// Copies the action as it is.
fn action_copied(alloc: Global, action: &TargetAction) -> Result<TargetAction, NoMemory>
    ensures { IfOk result (λ copy. copy ≡ action.now) }
{
    let name = name_copied(alloc, &action.name)?;
    let pre = copied(alloc, &action.pre)?;
    let effects = effects_copied(alloc, &action.effects)?;
    let cost = action.cost;
    Ok(TargetAction {
        name,
        pre,
        effects,
        cost,
    })
}

/// Gives the action alone, which has no conditions.
fn only_action(alloc: Global, action: &TargetAction) -> Result<List<TargetAction>, NoMemory>
    ensures { IfOk result (λ copies. copies ≡ action.now ∷ []) }
{
    let mut copies = List::new(alloc);
    copies.push(action_copied(alloc, action)?)?;
    Ok(copies)
}

/// Makes the copies of an action with few conditions: itself where it has none.
fn copies_placed(
    alloc: Global,
    action: &TargetAction,
    placing: &Placing,
) -> Result<List<TargetAction>, NoMemory>
    requires { ArePlacedIn action.now.effects placing.now }
    ensures { IfOk result (AreCopiesOf action.now) }
{
    if placing.conditions.is_empty() {
        return only_action(alloc, action);
    }
    let literals = literals_of(alloc, &placing.conditions)?;
    let choices = all_choices(alloc, &action.pre, &literals)?;
    copies_by(alloc, action, &placing.changes, &choices)
}

/// Makes the copies of an action, unless it has too many conditions.
pub(crate) fn copies_of(
    alloc: Global,
    action: &TargetAction,
) -> Result<Option<List<TargetAction>>, NoMemory>
    ensures { IfOk result (AreCopiesIf action.now) }
{
    match place_all(alloc, &action.effects)? {
        Some(placing) => Ok(Some(copies_placed(alloc, action, &placing)?)),
        None => Ok(None),
    }
}
