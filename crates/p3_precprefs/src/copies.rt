//! A step split by its preferences.

ghost use Rattle.std.specs.Prelude.{◌≡◌, ◌≤◌, ◌<◌, ◌+◌, ◌++◌, ◌^◌, ℕ, Bool, true, false, [], length, map, sum_by, IfOk, IsSome, IsTrue, OnOk};
ghost use Rattle.std.specs.List.{All};
ghost use Rattle.p3_formula.specs.Forms.{State, truth};
ghost use Rattle.p3_formula.specs.Simplified.{is_value};
ghost use Rattle.p3_formula.specs.Tidy.{is_tidy};
ghost use Rattle.p3_formula.specs.Weighted.{AreNamedBelow, weight_of, weighted, weighted_cost};
ghost use Rattle.p3_formula.specs.declared.modal.GroundPref.{GroundPref};
ghost use Rattle.p3_precprefs.specs.Choices as chosen;
ghost use Rattle.p3_precprefs.specs.Copies as made;

use crate::choices::{Choice, choices, is_false};
use p3_base::{List, NoMemory};
use p3_formula::{Form, GroundStep, Weights, copied, push_spread, tidied};
use std::alloc::Global;

/// A copy of a step, for one choice of its weighted preferences that are violated.
#[derive(Debug, Drop)]
pub struct StepCopy {
    /// Whether each weighted preference is violated, in order.
    pub violated: List<bool>,
    /// The precondition of the step, and that just those preferences are violated.
    pub pre: Form,
    /// The weighted cost, with the weights of those preferences.
    pub cost: u64,
}

/// The copies of a step: one for each choice of its weighted preferences that are violated, but none
/// whose simplified precondition never holds.
pub fn split(
    alloc: Global,
    step: &GroundStep,
    weights: &Weights,
) -> Result<List<StepCopy>, NoMemory>
    requires cost { IsSome step.now.cost }
    requires names { AreNamedBelow (length weights.now.by_name) step.now.prefs }
    requires few { length (weighted weights.now.by_name step.now.prefs) ≤ 8 }
    requires room { weighted_cost weights.now step.now + sum_by
        (weight_of weights.now.by_name) step.now.prefs
        < 2 ^ 62 }
    // Where the step fits, so does one copy, which shows what is violated and costs its weights.
    ensures one_copy { IfOk result (λ copies.
        (state : State) → truth state step.now.pre ≡ true
        → made.HasOneCopy weights.now step.now copies state) }
    // Elsewhere no copy fits.
    ensures no_copy { IfOk result (λ copies.
        (state : State) → truth state step.now.pre ≡ false → made.fitting state copies ≡ []) }
    // They show some of the choices, in order.
    ensures shown { IfOk result (λ copies. made.IsSublist (made.violated_lists copies)
        (made.patterns (length (weighted weights.now.by_name step.now.prefs)))) }
    // No two copies show the same, and each has an entry for each weighted preference.
    ensures apart { IfOk result (λ copies. made.AreApart (made.violated_lists copies)) }
    ensures entries { IfOk result (λ copies.
        All (λ (copy : StepCopy). length copy.violated
        ≡ length (weighted weights.now.by_name step.now.prefs)) copies) }
    // The precondition of none is the constant that never holds.
    ensures possible { IfOk result (λ copies.
        All (λ (copy : StepCopy). is_value false copy.pre ≡ false) copies) }
    // Their preconditions are tidy, and read no atoms but those of the step.
    ensures tidy { IfOk result (λ copies.
        All (λ (copy : StepCopy). IsTrue (is_tidy copy.pre)) copies) }
    ensures atoms { IfOk result (λ copies.
        (allowed : ℕ → Bool) → made.HasAtomsIn allowed step.now.pre
        → All (λ (pref : GroundPref). made.HasAtomsIn allowed pref.body) step.now.prefs
        → All (λ (copy : StepCopy). made.HasAtomsIn allowed copy.pre) copies) }
{
    split_under(alloc, copied(alloc, &step.pre)?, step, weights)
}

/// The copies of a step under that precondition in the place of its own: one for each choice of its
/// weighted preferences that are violated, but none whose simplified precondition never holds.
pub fn split_under(
    alloc: Global,
    pre: Form,
    step: &GroundStep,
    weights: &Weights,
) -> Result<List<StepCopy>, NoMemory>
    requires cost { IsSome step.now.cost }
    requires names { AreNamedBelow (length weights.now.by_name) step.now.prefs }
    requires few { length (weighted weights.now.by_name step.now.prefs) ≤ 8 }
    requires room { weighted_cost weights.now step.now + sum_by
        (weight_of weights.now.by_name) step.now.prefs
        < 2 ^ 62 }
    // Where the precondition holds, one copy fits, which shows what is violated and costs its weights.
    ensures one_copy { IfOk result (λ copies.
        (state : State) → truth state pre ≡ true
        → made.HasOneCopy weights.now step.now copies state) }
    // Elsewhere no copy fits.
    ensures no_copy { IfOk result (λ copies.
        (state : State) → truth state pre ≡ false → made.fitting state copies ≡ []) }
    // They show some of the choices, in order.
    ensures shown { IfOk result (λ copies. made.IsSublist (made.violated_lists copies)
        (made.patterns (length (weighted weights.now.by_name step.now.prefs)))) }
    // No two copies show the same, and each has an entry for each weighted preference.
    ensures apart { IfOk result (λ copies. made.AreApart (made.violated_lists copies)) }
    ensures entries { IfOk result (λ copies.
        All (λ (copy : StepCopy). length copy.violated
        ≡ length (weighted weights.now.by_name step.now.prefs)) copies) }
    // The precondition of none is the constant that never holds.
    ensures possible { IfOk result (λ copies.
        All (λ (copy : StepCopy). is_value false copy.pre ≡ false) copies) }
    // Their preconditions are tidy, and read no atoms but those of the precondition and the preferences.
    ensures tidy { IfOk result (λ copies.
        All (λ (copy : StepCopy). IsTrue (is_tidy copy.pre)) copies) }
    ensures atoms { IfOk result (λ copies.
        (allowed : ℕ → Bool) → made.HasAtomsIn allowed pre
        → All (λ (pref : GroundPref). made.HasAtomsIn allowed pref.body) step.now.prefs
        → All (λ (copy : StepCopy). made.HasAtomsIn allowed copy.pre) copies) }
{
    let simple = tidied(alloc, pre)?;
    split_simple(alloc, simple, step, weights)
}

/// The copies under a precondition that is tidy.
fn split_simple(
    alloc: Global,
    pre: Form,
    step: &GroundStep,
    weights: &Weights,
) -> Result<List<StepCopy>, NoMemory>
    requires names { AreNamedBelow (length weights.now.by_name) step.now.prefs }
    requires room { weighted_cost weights.now step.now + sum_by
        (weight_of weights.now.by_name) step.now.prefs
        < 2 ^ 62 }
    ensures { IfOk result (λ copies. copies
        ≡ chosen.all_copies weights.now step.now pre) }
{
    if is_false(&pre) {
        return Ok(List::new(alloc));
    }
    let choices = choices(alloc, &pre, step, weights)?;
    copies_of(alloc, pre, choices)
}

/// The copy of each choice, the last of which takes the precondition.
fn copies_of(alloc: Global, pre: Form, choices: List<Choice>) -> Result<List<StepCopy>, NoMemory>
    ensures { IfOk result (λ copies. copies ≡ map (chosen.copy_of pre) choices) }
{
    let mut others = choices.into_items();
    let Some(last) = others.pop() else {
        return Ok(List::new(alloc));
    };
    let mut copies = other_copies(alloc, &pre, others)?;
    copies.push(copy_of(alloc, pre, last)?)?;
    Ok(List::from(copies))
}

/// The copy of each choice, each with a precondition of its own.
fn other_copies(alloc: Global, pre: &Form, choices: Vec<Choice>) -> Result<Vec<StepCopy>, NoMemory>
    ensures { IfOk result (λ copies. copies.items ≡ map (chosen.copy_of pre.now) choices.items) }
{
    let mut copies = Vec::with_capacity(alloc, choices.len().saturating_add(1))?;
    for choice in choices {
        copies.push(copy_of(alloc, copied(alloc, pre)?, choice)?)?;
    }
    Ok(copies)
}

/// The copy of a choice under the precondition.
fn copy_of(alloc: Global, pre: Form, choice: Choice) -> Result<StepCopy, NoMemory>
    ensures { IfOk result (λ copy. copy ≡ chosen.copy_of pre choice) }
{
    let Choice {
        violated,
        asked,
        cost,
    } = choice;
    let pre = conjoined(alloc, pre, asked)?;
    Ok(StepCopy {
        violated,
        pre,
        cost,
    })
}

/// The conjunction of two tidy forms, without a conjunction in it.
fn conjoined(alloc: Global, first: Form, second: Form) -> Result<Form, NoMemory>
    ensures { IfOk result (λ form. form ≡ chosen.conjoined first second) }
{
    if is_true(&first) {
        drop(first);
        return Ok(second);
    }
    if is_true(&second) {
        drop(second);
        return Ok(first);
    }
    let room = part_count(&first).saturating_add(part_count(&second));
    let mut parts = Vec::with_capacity(alloc, room)?;
    push_spread(&mut parts, first)?;
    push_spread(&mut parts, second)?;
    Ok(Form::And(List::from(parts)))
}

/// Whether the form is the constant that always holds.
fn is_true(form: &Form) -> bool
    ensures { result ≡ is_value true form.now }
{
    matches!(form, Form::True)
}

/// How many parts the form has as a part of a conjunction.
fn part_count(form: &Form) -> usize {
    match form {
        Form::And(parts) => parts.len(),
        _ => 1,
    }
}
