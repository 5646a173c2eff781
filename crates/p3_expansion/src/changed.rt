//! Which predicates effects name.

ghost use Rattle.std.specs.Prelude.{◌≡◌, flat_map, false, length, replicate, slice_set, true, IfOk};
ghost use Rattle.p3_expansion.specs.Statics.{changed_predicates, marked, task_predicates};

use p3_base::NoMemory;
use p3_formula::Bits;
use p3_numbers::{NumberedEffect, NumberedTask};
use std::alloc::Global;

/// Marks the predicate, where there is a bit for it.
fn mark(marks: &mut Bits, predicate: u32)
    ensures { marks.new ≡ slice_set marks.old predicate true }
{
    let place = predicate as usize;
    if place < marks.count() {
        marks.set(place, true);
    }
}

/// Marks the predicates of the literals of an effect.
#[cycle(marks)]
fn mark_effect(marks: &mut Bits, effect: &NumberedEffect)
    ensures { marks.new ≡ marked marks.old (changed_predicates effect.now) }
{
    match effect {
        NumberedEffect::Add { predicate, .. } => mark(marks, *predicate),
        NumberedEffect::Del { predicate, .. } => mark(marks, *predicate),
        NumberedEffect::All(parts) => mark_parts(marks, parts.items()),
        NumberedEffect::Each(_, body) => mark_effect(marks, body.get()),
        NumberedEffect::If(_, body) => mark_effect(marks, body.get()),
        NumberedEffect::Cost(_) => {}
    }
}

/// Marks the predicates of the literals of the effects.
#[cycle(marks)]
fn mark_parts(marks: &mut Bits, parts: &[NumberedEffect])
    ensures { marks.new ≡ marked marks.old (flat_map changed_predicates parts.now) }
{
    for part in parts {
        mark_effect(marks, part);
    }
}

/// For each predicate whether some effect of the task names it.
pub(crate) fn changed_bits(alloc: Global, task: &NumberedTask) -> Result<Bits, NoMemory>
    ensures { IfOk result (λ marks. marks
        ≡ marked (replicate (length task.now.numbers.predicates) false)
        (task_predicates task.now)) }
{
    let mut marks = Bits::new(alloc, task.numbers.predicates.len())?;
    for action in task.actions.items() {
        mark_effect(&mut marks, &action.effect);
    }
    Ok(marks)
}
