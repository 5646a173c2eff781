//! The changes of a monitor's atoms that ride on a step.

ghost use Rattle.std.specs.Prelude.{◌≡◌, ◌≤◌, ◌+◌, ◌-◌, ◌^◌, ◌++◌, [], ◌∷◌, IfOk, OnOk};
ghost use Rattle.p3_formula.specs.Simplified.{is_value};
ghost use Rattle.p3_formula.specs.Trimmed.{unless_never};
ghost use Rattle.p3_monitors.specs.Updates as made;

use p3_base::{List, NoMemory};
use p3_formula::{Change, Effects, Form, copied};
use std::alloc::Global;

/// The atom is set, or else cleared, where the condition holds.
fn change(cond: Form, atom: usize, add: bool) -> Change
    ensures { result ≡ made.change add atom cond }
{
    Change { cond, atom, add }
}

/// The change stands behind the others, where it may happen.
fn push_change(
    effects: &mut Vec<Change>,
    cond: Form,
    atom: usize,
    add: bool,
) -> Result<(), NoMemory>
    ensures { OnOk result (effects.new.items
        ≡ effects.old.items ++ unless_never (made.change add atom cond)) }
{
    if is_value(&cond, false) {
        drop(cond);
        return Ok(());
    }
    effects.push(change(cond, atom, add))?;
    Ok(())
}

/// One change, where it may happen.
#[tactic(auto, using(crate::proofs::PossibleLaws::possible_laws))]
fn one(alloc: Global, cond: Form, atom: usize, add: bool) -> Result<Effects, NoMemory>
    ensures { IfOk result (λ effects.
        effects ≡ made.possible (made.change add atom cond ∷ [])) }
{
    let mut effects = Vec::new(alloc);
    push_change(&mut effects, cond, atom, add)?;
    Ok(List::from(effects))
}

/// Whether the form is the constant of that value.
pub(crate) fn is_value(form: &Form, value: bool) -> bool
    ensures { result ≡ is_value value form.now }
{
    match form {
        Form::True => value,
        Form::False => !value,
        Form::Atom(_) | Form::Not(_) | Form::And(_) | Form::Or(_) => false,
    }
}

/// Makes the negation of a condition, and a constant for a constant.
pub(crate) fn unless(alloc: Global, condition: Form) -> Result<Form, NoMemory>
    ensures { IfOk result (λ form. form ≡ made.unless condition) }
{
    if is_value(&condition, false) {
        return Ok(Form::True);
    }
    if is_value(&condition, true) {
        return Ok(Form::False);
    }
    Form::negation(alloc, condition)
}

/// The atom is set, the form does not hold, and it does later, where that may be a constant.
pub(crate) fn back(alloc: Global, base: usize, form: &Form, later: Form) -> Result<Form, NoMemory>
    ensures { IfOk result (λ back. back ≡ made.back base form.now later) }
{
    if is_value(&later, false) {
        return Ok(Form::False);
    }
    let gone = Form::negation(alloc, copied(alloc, form)?)?;
    if is_value(&later, true) {
        return Form::both(alloc, Form::Atom(base), gone);
    }
    all_three(alloc, Form::Atom(base), gone, later)
}

/// The conjunction of three forms.
fn all_three(alloc: Global, first: Form, second: Form, third: Form) -> Result<Form, NoMemory>
    ensures { IfOk result (λ form. form ≡ Form.And (first ∷ second ∷ third ∷ [])) }
{
    let mut parts = Vec::with_capacity(alloc, 3)?;
    parts.push(first)?;
    parts.push(second)?;
    parts.push(third)?;
    Ok(Form::And(List::from(parts)))
}

/// The form holds, and the atom is not set.
pub(crate) fn early(alloc: Global, base: usize, first: Form) -> Result<Form, NoMemory>
    ensures { IfOk result (λ early. early ≡ made.early base first) }
{
    if is_value(&first, false) {
        return Ok(Form::False);
    }
    let unmet = Form::negation(alloc, Form::Atom(base))?;
    if is_value(&first, true) {
        return Ok(unmet);
    }
    Form::both(alloc, first, unmet)
}

/// It has held in every state: no more where it does not hold after the step.
pub(crate) fn always(alloc: Global, base: usize, later: Form) -> Result<Effects, NoMemory>
    ensures { IfOk result (λ effects. effects ≡ made.possible (made.always base later)) }
{
    one(alloc, unless(alloc, later)?, base, false)
}

/// It has held in some state: so it has where it holds after the step.
pub(crate) fn sometime(alloc: Global, base: usize, later: Form) -> Result<Effects, NoMemory>
    ensures { IfOk result (λ effects. effects ≡ made.possible (made.sometime base later)) }
{
    one(alloc, later, base, true)
}

/// It has held in some state; and it came back after a gap: so it does where it has held, does not
/// hold before the step and holds after it.
#[tactic(auto, using(crate::proofs::PossibleLaws::possible_laws))]
pub(crate) fn at_most_once(
    alloc: Global,
    base: usize,
    form: &Form,
    later: Form,
) -> Result<Effects, NoMemory>
    requires { base + 1 ≤ 2 ^ 64 - 1 }
    ensures { IfOk result (λ effects.
        effects ≡ made.possible (made.at_most_once base form.now later)) }
{
    let mut effects = Vec::new(alloc);
    push_change(&mut effects, copied(alloc, &later)?, base, true)?;
    push_change(
        &mut effects,
        back(alloc, base, form, later)?,
        base + 1,
        true,
    )?;
    Ok(List::from(effects))
}

/// The first form holds, and the second does not.
pub(crate) fn awaits(alloc: Global, first: &Form, second: &Form) -> Result<Form, NoMemory>
    ensures { IfOk result (λ form. form ≡ made.awaits first.now second.now) }
{
    let unmet = Form::negation(alloc, copied(alloc, second)?)?;
    Form::both(alloc, copied(alloc, first)?, unmet)
}

/// The second form is awaited: no more where the step makes it hold, and else from where the step
/// makes the first hold without it.
#[tactic(auto, using(crate::proofs::PossibleLaws::possible_laws))]
pub(crate) fn sometime_after(
    alloc: Global,
    base: usize,
    met: Form,
    awaited: Form,
) -> Result<Effects, NoMemory>
    ensures { IfOk result (λ effects.
        effects ≡ made.possible (made.sometime_after base met awaited)) }
{
    let mut effects = Vec::new(alloc);
    push_change(&mut effects, met, base, false)?;
    push_change(&mut effects, awaited, base, true)?;
    Ok(List::from(effects))
}

/// The second form has held in some state; and the first came too early: so it does where it holds
/// after the step and the second has not held before.
#[tactic(auto, using(crate::proofs::PossibleLaws::possible_laws))]
pub(crate) fn sometime_before(
    alloc: Global,
    base: usize,
    first: Form,
    second: Form,
) -> Result<Effects, NoMemory>
    requires { base + 1 ≤ 2 ^ 64 - 1 }
    ensures { IfOk result (λ effects.
        effects ≡ made.possible (made.sometime_before base first second)) }
{
    let mut effects = Vec::new(alloc);
    push_change(&mut effects, second, base, true)?;
    push_change(&mut effects, early(alloc, base, first)?, base + 1, true)?;
    Ok(List::from(effects))
}
