//! Choices of the preferences of a step that are violated, made by one preference after another.

ghost use Rattle.std.specs.Prelude.{◌≡◌, ◌<◌, ◌+◌, ◌^◌, [], ◌∷◌, ◌++◌, length, sum_by, IfOk, OnOk, false};
ghost use Rattle.p3_formula.specs.Literals.{said_of};
ghost use Rattle.p3_formula.specs.Simplified.{is_value, negated};
ghost use Rattle.p3_formula.specs.Weighted.{AreNamedBelow, HasNameBelow, weight_of, weighted_cost};
ghost use Rattle.p3_precprefs.specs.Choices as made;

use crate::weighing::{weight_of, weighted_cost};
use p3_base::{List, NoMemory};
use p3_formula::{
    Form, GroundPref, GroundStep, Known, Weights, copied, gathered_both, negate, simplify_under,
};
use std::alloc::Global;

/// A choice of the weighted preferences that are violated.
#[derive(Drop)]
pub(crate) struct Choice {
    /// Whether each of the preferences is violated, in order.
    pub(crate) violated: List<bool>,
    /// What it asks of a state beside the precondition, under which this is simplified.
    pub(crate) asked: Form,
    /// The weighted cost, with the weights of those that are violated.
    pub(crate) cost: u64,
}

/// The choices that some state may meet in which the precondition holds.
pub(crate) fn choices(
    alloc: Global,
    pre: &Form,
    step: &GroundStep,
    weights: &Weights,
) -> Result<List<Choice>, NoMemory>
    requires names { AreNamedBelow (length weights.now.by_name) step.now.prefs }
    requires room { weighted_cost weights.now step.now + sum_by
        (weight_of weights.now.by_name) step.now.prefs
        < 2 ^ 62 }
    ensures { IfOk result (λ choices. choices
        ≡ made.split_all (made.known_by pre.now) weights.now.by_name step.now.prefs
        (made.first_choice weights.now step.now ∷ [])) }
{
    let first = first_choices(alloc, step, weights)?;
    if step.prefs.items().is_empty() {
        return Ok(first);
    }
    let known = Known::where_holds(alloc, pre)?;
    split_all(alloc, first, step, weights, &known)
}

/// The choices, made of the first one by one preference after another.
fn split_all(
    alloc: Global,
    first: List<Choice>,
    step: &GroundStep,
    weights: &Weights,
    known: &Known,
) -> Result<List<Choice>, NoMemory>
    requires first { first ≡ made.first_choice weights.now step.now ∷ [] }
    requires names { AreNamedBelow (length weights.now.by_name) step.now.prefs }
    requires room { weighted_cost weights.now step.now + sum_by
        (weight_of weights.now.by_name) step.now.prefs
        < 2 ^ 62 }
    ensures { IfOk result (λ choices. choices
        ≡ made.split_all (said_of known.now) weights.now.by_name step.now.prefs first) }
{
    let mut choices = first;
    for pref in step.prefs.items() {
        choices = split_by(alloc, &weights.by_name, choices, pref, known)?;
    }
    Ok(choices)
}

/// One choice, for no preference yet.
fn first_choices(
    alloc: Global,
    step: &GroundStep,
    weights: &Weights,
) -> Result<List<Choice>, NoMemory>
    requires room { weighted_cost weights.now step.now < 2 ^ 62 }
    ensures { IfOk result (λ choices.
        choices ≡ made.first_choice weights.now step.now ∷ []) }
{
    let mut choices = Vec::with_capacity(alloc, 1)?;
    choices.push(Choice {
        violated: List::new(alloc),
        asked: Form::True,
        cost: weighted_cost(weights.total_cost, step.cost),
    })?;
    Ok(List::from(choices))
}

/// Both choices of each where the preference has a weight, and else the same.
fn split_by(
    alloc: Global,
    by_name: &List<u64>,
    choices: List<Choice>,
    pref: &GroundPref,
    known: &Known,
) -> Result<List<Choice>, NoMemory>
    requires named { HasNameBelow (length by_name.now) pref.now.name }
    requires weight { weight_of by_name.now pref.now < 2 ^ 62 }
    requires costs { made.IsWithin (2 ^ 62) choices }
    ensures { IfOk result (λ new.
        new ≡ made.split_by (said_of known.now) by_name.now choices pref.now) }
{
    let weight = weight_of(by_name, pref);
    if weight > 0 {
        let body = simplify_under(alloc, &pref.body, known)?;
        let opposite = negate(alloc, &body)?;
        return doubled(alloc, choices, &body, &opposite, weight);
    }
    Ok(choices)
}

/// Of each choice those that some state may meet of two: the preference is satisfied, or it is
/// violated, where its opposite holds.
fn doubled(
    alloc: Global,
    choices: List<Choice>,
    body: &Form,
    opposite: &Form,
    weight: u64,
) -> Result<List<Choice>, NoMemory>
    requires opposite { opposite.now ≡ negated body.now }
    requires weight { weight < 2 ^ 62 }
    requires costs { made.IsWithin (2 ^ 62) choices }
    ensures { IfOk result (λ new. new ≡ made.doubled body.now weight choices) }
{
    let mut new = Vec::with_capacity(alloc, choices.len().saturating_mul(2))?;
    for choice in choices.into_items() {
        push_unless_never(&mut new, satisfied(alloc, &choice, body)?)?;
        push_unless_never(&mut new, violating(alloc, choice, opposite, weight)?)?;
    }
    Ok(List::from(new))
}

/// The choice stands behind the others, where some state may meet it.
fn push_unless_never(new: &mut Vec<Choice>, choice: Choice) -> Result<(), NoMemory>
    ensures { OnOk result (new.new.items ≡ new.old.items ++ made.unless_never choice) }
{
    if is_false(&choice.asked) {
        drop(choice);
        return Ok(());
    }
    new.push(choice)?;
    Ok(())
}

/// Whether the form is the constant that never holds.
pub(crate) fn is_false(form: &Form) -> bool
    ensures { result ≡ is_value false form.now }
{
    matches!(form, Form::False)
}

/// The choice where the preference is satisfied.
fn satisfied(alloc: Global, choice: &Choice, body: &Form) -> Result<Choice, NoMemory>
    ensures { IfOk result (λ new. new ≡ made.satisfied body.now choice.now) }
{
    let violated = entry_added(alloc, &choice.violated, false)?;
    let asked = gathered_both(alloc, copied(alloc, &choice.asked)?, copied(alloc, body)?)?;
    let cost = choice.cost;
    Ok(Choice {
        violated,
        asked,
        cost,
    })
}

/// The choice where the opposite of the preference holds, at its weight.
fn violating(
    alloc: Global,
    choice: Choice,
    opposite: &Form,
    weight: u64,
) -> Result<Choice, NoMemory>
    requires { choice.cost + weight < 2 ^ 64 }
    ensures { IfOk result (λ new. new ≡ made.violating opposite.now weight choice) }
{
    let Choice {
        mut violated,
        asked,
        cost,
    } = choice;
    violated.push(true)?;
    let asked = gathered_both(alloc, asked, copied(alloc, opposite)?)?;
    let cost = cost + weight;
    Ok(Choice {
        violated,
        asked,
        cost,
    })
}

/// The entries with one more.
fn entry_added(alloc: Global, entries: &List<bool>, entry: bool) -> Result<List<bool>, NoMemory>
    ensures { IfOk result (λ new. new ≡ entries.now ++ entry ∷ []) }
{
    let mut new = List::new(alloc);
    for earlier in entries.items() {
        new.push(*earlier)?;
    }
    new.push(entry)?;
    Ok(new)
}
