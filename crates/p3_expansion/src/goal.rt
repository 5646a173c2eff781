//! The hard parts of goals at objects as tidy forms.

ghost use Rattle.std.specs.Prelude.{true, IfOk};
ghost use Rattle.p3_expansion.specs.Expansions.{Gathers};
ghost use Rattle.p3_expansion.specs.Forms.{Makes};
ghost use Rattle.p3_expansion.specs.Hard.{hard_meaning, hard_parts as parts_of, hard_bodies as bodies_of};
ghost use Rattle.p3_expansion.specs.Meanings.{reads_of};

use crate::choices::{choice_count, place_choice};
use crate::condition::condition_form;
use crate::junction::Junction;
use crate::{Statics, Work};
use p3_base::NoMemory;
use p3_formula::Form;
use p3_numbers::{NumberedGoal, Numbers};

/// The tidy form of the hard part of a goal at the objects in the slots.
#[cycle(hard)]
pub fn hard_form(
    numbers: &Numbers,
    statics: &Statics,
    work: &mut Work,
    slots: &[u32],
    goal: &NumberedGoal,
) -> Result<Form, NoMemory>
    ensures { IfOk result (Makes numbers.now statics.now work.old work.new
        (hard_meaning numbers.now slots.now goal.now)) }
{
    match goal {
        NumberedGoal::Plain(condition) => {
            let form = condition_form(numbers, statics, work, slots, condition)?;
            Ok(form)
        }
        NumberedGoal::Both(parts) => {
            let gathered = hard_parts(numbers, statics, work, slots, parts.items())?;
            Ok(gathered.finish())
        }
        NumberedGoal::Each(ranges, body) => {
            let (ranges, body) = (ranges.items(), body.get());
            let gathered = hard_bodies(numbers, statics, work, slots, ranges, body)?;
            Ok(gathered.finish())
        }
        NumberedGoal::Soft(_) => Ok(Form::True),
    }
}

/// How many of the goals are more than a preference.
fn hard_count(parts: &[NumberedGoal]) -> usize {
    let mut count = 0usize;
    for part in parts {
        match part {
            NumberedGoal::Soft(_) => {}
            _ => count = count.wrapping_add(1),
        }
    }
    count
}

/// The hard parts of the goals, until they are decided.
#[cycle(hard)]
fn hard_parts(
    numbers: &Numbers,
    statics: &Statics,
    work: &mut Work,
    slots: &[u32],
    parts: &[NumberedGoal],
) -> Result<Junction, NoMemory>
    ensures { IfOk result (Gathers numbers.now statics.now
        (reads_of (parts_of numbers.now slots.now parts.now)) work.old work.new true
        (parts_of numbers.now slots.now parts.now)) }
{
    let mut gathered = Junction::with_room(work.alloc, true, hard_count(parts))?;
    for part in parts {
        if gathered.is_cut {
            return Ok(gathered);
        }
        let form = hard_form(numbers, statics, work, slots, part)?;
        gathered.take(form)?;
    }
    Ok(gathered)
}

/// The hard part of the body at each choice of one object of each range, until it is decided.
#[cycle(hard)]
fn hard_bodies(
    numbers: &Numbers,
    statics: &Statics,
    work: &mut Work,
    slots: &[u32],
    ranges: &[u32],
    body: &NumberedGoal,
) -> Result<Junction, NoMemory>
    ensures { IfOk result (Gathers numbers.now statics.now
        (reads_of (bodies_of numbers.now slots.now ranges.now body.now)) work.old work.new true
        (bodies_of numbers.now slots.now ranges.now body.now)) }
{
    let count = choice_count(numbers, ranges)?;
    let mut inner = Vec::from_slice(work.alloc, slots)?;
    let mut gathered = Junction::new(work.alloc, true);
    for choice in 0..count {
        if gathered.is_cut {
            return Ok(gathered);
        }
        place_choice(&mut inner, slots.len(), numbers, ranges, count, choice)?;
        let form = hard_form(numbers, statics, work, inner.as_slice(), body)?;
        gathered.take(form)?;
    }
    Ok(gathered)
}
