//! Conditions at objects as tidy forms, with what no step changes decided.

ghost use Rattle.std.specs.Prelude.{true, false, IfOk};
ghost use Rattle.p3_expansion.specs.Expansions.{Gathers};
ghost use Rattle.p3_expansion.specs.Forms.{Makes};
ghost use Rattle.p3_expansion.specs.Meanings.{condition_meaning, combined, quantified, reads_of};

use crate::choices::{choice_count, place_choice};
use crate::form::{constant, is_value, negated};
use crate::junction::{Junction, either};
use crate::work::are_same;
use crate::{Statics, Work};
use p3_base::NoMemory;
use p3_formula::Form;
use p3_numbers::{NumberedArgument, NumberedCondition, Numbers};

/// The form of an atom.
fn atom_form(
    numbers: &Numbers,
    statics: &Statics,
    work: &mut Work,
    slots: &[u32],
    predicate: u32,
    args: &[NumberedArgument],
) -> Result<Form, NoMemory>
    ensures { IfOk result (Makes numbers.now statics.now work.old work.new
        (condition_meaning numbers.now slots.now (NumberedCondition.Atom predicate args.now))) }
{
    work.spell(slots, predicate, args)?;
    if statics.is_decided(numbers, work.words.as_slice()) {
        let holds = statics.facts.has(work.words.as_slice());
        return Ok(constant(holds));
    }
    let form = work.atom_form()?;
    Ok(form)
}

/// The tidy form of a condition at the objects in the slots. What no step changes is decided at
/// once.
#[cycle(expand)]
pub(crate) fn condition_form(
    numbers: &Numbers,
    statics: &Statics,
    work: &mut Work,
    slots: &[u32],
    condition: &NumberedCondition,
) -> Result<Form, NoMemory>
    ensures { IfOk result (Makes numbers.now statics.now work.old work.new
        (condition_meaning numbers.now slots.now condition.now)) }
{
    match condition {
        NumberedCondition::Atom { predicate, args } => {
            let form = atom_form(numbers, statics, work, slots, *predicate, args.items())?;
            Ok(form)
        }
        NumberedCondition::Equal(left, right) => Ok(constant(are_same(slots, *left, *right))),
        NumberedCondition::And(parts) => {
            let gathered = gathered_parts(numbers, statics, work, slots, true, parts.items())?;
            Ok(gathered.finish())
        }
        NumberedCondition::Or(parts) => {
            let gathered = gathered_parts(numbers, statics, work, slots, false, parts.items())?;
            Ok(gathered.finish())
        }
        NumberedCondition::Not(part) => {
            let part = condition_form(numbers, statics, work, slots, part.get())?;
            let form = negated(work.alloc, part)?;
            Ok(form)
        }
        NumberedCondition::Imply(first, second) => {
            let first = condition_form(numbers, statics, work, slots, first.get())?;
            let first = negated(work.alloc, first)?;
            if is_value(&first, true) {
                return Ok(first);
            }
            let second = condition_form(numbers, statics, work, slots, second.get())?;
            let form = either(work.alloc, first, second)?;
            Ok(form)
        }
        NumberedCondition::Exists(ranges, body) => {
            let (ranges, body) = (ranges.items(), body.get());
            let gathered = gathered_body(numbers, statics, work, slots, false, ranges, body)?;
            Ok(gathered.finish())
        }
        NumberedCondition::Forall(ranges, body) => {
            let (ranges, body) = (ranges.items(), body.get());
            let gathered = gathered_body(numbers, statics, work, slots, true, ranges, body)?;
            Ok(gathered.finish())
        }
    }
}

/// The conditions, until they are decided.
#[cycle(expand)]
fn gathered_parts(
    numbers: &Numbers,
    statics: &Statics,
    work: &mut Work,
    slots: &[u32],
    every: bool,
    parts: &[NumberedCondition],
) -> Result<Junction, NoMemory>
    ensures { IfOk result (Gathers numbers.now statics.now
        (reads_of (combined numbers.now slots.now parts.now)) work.old work.new every
        (combined numbers.now slots.now parts.now)) }
{
    let mut gathered = Junction::with_room(work.alloc, every, parts.len())?;
    for part in parts {
        if gathered.is_cut {
            return Ok(gathered);
        }
        let made = condition_form(numbers, statics, work, slots, part)?;
        gathered.take(made)?;
    }
    Ok(gathered)
}

/// The body at each choice of one object of each range, until it is decided.
#[cycle(expand)]
fn gathered_body(
    numbers: &Numbers,
    statics: &Statics,
    work: &mut Work,
    slots: &[u32],
    every: bool,
    ranges: &[u32],
    body: &NumberedCondition,
) -> Result<Junction, NoMemory>
    ensures { IfOk result (Gathers numbers.now statics.now
        (reads_of (quantified numbers.now slots.now ranges.now body.now)) work.old work.new every
        (quantified numbers.now slots.now ranges.now body.now)) }
{
    let count = choice_count(numbers, ranges)?;
    let mut inner = Vec::from_slice(work.alloc, slots)?;
    let mut gathered = Junction::new(work.alloc, every);
    for choice in 0..count {
        if gathered.is_cut {
            return Ok(gathered);
        }
        place_choice(&mut inner, slots.len(), numbers, ranges, count, choice)?;
        let made = condition_form(numbers, statics, work, inner.as_slice(), body)?;
        gathered.take(made)?;
    }
    Ok(gathered)
}
