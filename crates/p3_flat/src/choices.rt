//! The choices of which conditions hold.

ghost use Rattle.std.specs.Prelude.{◌≡◌, ◌∷◌, ◌++◌, [], IfOk, OnOk};
ghost use Rattle.std.specs.List.{All};
ghost use Rattle.p3_flat.specs.Splitting.{AreChoices, AreHalves, IsHalf, IsLiteral, conditions_in, forms_in, listed};

use crate::excluding::is_excluded;
use crate::literals::Literal;
use p3_base::{List, NoMemory};
use p3_formula::Form;
use std::alloc::Global;

/// A choice of which conditions hold.
#[derive(Debug, Drop)]
pub(crate) struct Choice<'f> {
    /// Whether each condition holds, in order.
    pub(crate) pattern: List<bool>,
    /// What has to hold for it, beside the precondition.
    pub(crate) parts: List<&'f Form>,
}

/// Makes the pattern with one entry more.
fn entry_added(alloc: Global, pattern: &List<bool>, entry: bool) -> Result<List<bool>, NoMemory>
    ensures { IfOk result (λ new. new ≡ pattern.now ++ entry ∷ []) }
{
    let mut new = Vec::with_capacity(alloc, pattern.len().saturating_add(1))?;
    new.extend_from_slice(pattern.items())?;
    new.push(entry)?;
    Ok(List::from(new))
}

/// Makes the parts with one more.
fn part_added<'f>(
    alloc: Global,
    parts: &List<&'f Form>,
    part: &'f Form,
) -> Result<List<&'f Form>, NoMemory>
    ensures { IfOk result (λ new. forms_in new ≡ forms_in parts.now ++ part.now ∷ []) }
{
    let mut new = Vec::with_capacity(alloc, parts.len().saturating_add(1))?;
    new.extend_from_slice(parts.items())?;
    new.push(part)?;
    Ok(List::from(new))
}

/// Makes the choice with one part more, of a condition that holds or does not, unless that part is
/// seen to hold in no state in which the action fits.
fn half<'f>(
    alloc: Global,
    pre: &Form,
    choice: &Choice<'f>,
    part: &'f Form,
    holds: bool,
) -> Result<Option<Choice<'f>>, NoMemory>
    ensures { IfOk result (IsHalf pre.now choice.now part.now holds) }
{
    if is_excluded(pre, choice.parts.items(), part) {
        return Ok(None);
    }
    let pattern = entry_added(alloc, &choice.pattern, holds)?;
    let parts = part_added(alloc, &choice.parts, part)?;
    Ok(Some(Choice { pattern, parts }))
}

/// Puts the choice behind the others, if there is one.
fn push_listed<'f>(
    choices: &mut Vec<Choice<'f>>,
    choice: Option<Choice<'f>>,
) -> Result<(), NoMemory>
    ensures { OnOk result (choices.new.items ≡ choices.old.items ++ listed choice.entry) }
{
    if let Some(choice) = choice {
        choices.push(choice)?;
    }
    Ok(())
}

/// Makes the choices with one condition more, each way.
fn halves<'f>(
    alloc: Global,
    pre: &Form,
    choices: &List<Choice<'f>>,
    literal: &'f Literal,
) -> Result<List<Choice<'f>>, NoMemory>
    requires { IsLiteral literal.now }
    ensures { IfOk result (AreHalves pre.now literal.now.holds choices.now) }
{
    let mut new = Vec::with_capacity(alloc, choices.len().saturating_mul(2))?;
    for choice in choices.items() {
        let without = half(alloc, pre, choice, &literal.fails, false)?;
        let with = half(alloc, pre, choice, &literal.holds, true)?;
        push_listed(&mut new, without)?;
        push_listed(&mut new, with)?;
    }
    Ok(List::from(new))
}

/// Makes the one choice for no condition yet.
fn first_choice<'f>(alloc: Global) -> Result<List<Choice<'f>>, NoMemory>
    ensures { IfOk result (λ choices. choices ≡ record { pattern = []; parts = [] } ∷ []) }
{
    let mut choices = List::new(alloc);
    choices.push(Choice {
        pattern: List::new(alloc),
        parts: List::new(alloc),
    })?;
    Ok(choices)
}

/// Makes the choices of which conditions hold, beside a precondition.
pub(crate) fn all_choices<'f>(
    alloc: Global,
    pre: &Form,
    literals: &'f List<Literal>,
) -> Result<List<Choice<'f>>, NoMemory>
    requires { All IsLiteral literals.now }
    ensures { IfOk result (AreChoices pre.now (conditions_in literals.now)) }
{
    let mut made = first_choice(alloc)?;
    for literal in literals.items() {
        made = halves(alloc, pre, &made, literal)?;
    }
    Ok(made)
}
