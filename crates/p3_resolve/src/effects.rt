//! Effects with numbers.

ghost use Rattle.std.specs.Prelude.{◌≡◌, map, OnOk, IfOk};
ghost use Rattle.p3_numbers.specs.Effects.{amount_of, effect_of};
ghost use Rattle.p3_task.specs.Uses.{amount_uses, effect_uses};
ghost use Rattle.p3_resolve.specs.NumbersOf.{numbers_of};
ghost use Rattle.p3_resolve.specs.Walk.{with_tree, uses_of_each};

use crate::atoms::{Placed, atom, function, total_cost};
use crate::conditions::boxed_formula;
use crate::tables::Tables;
use crate::walk::Walk;
use p3_base::{Boxed, List, NoMemory};
use p3_numbers::{NumberedAmount, NumberedEffect};
use p3_task::{Amount, Effect};
use std::alloc::Global;

/// An amount with numbers; what is found in it is noted.
#[tactic(auto, using(crate::proofs::FormLemmas::amount_laws))]
fn numbered_amount<'t>(
    alloc: Global,
    tables: &Tables<'t>,
    walk: &mut Walk<'t>,
    amount: &Amount,
) -> Result<NumberedAmount, NoMemory>
    ensures walk { OnOk result
        (walk.new ≡ with_tree tables.now.task.now (amount_uses amount.now) walk.old) }
    ensures made { IfOk result
        (λ made. made ≡ amount_of (numbers_of tables.now) amount.now walk.old.words) }
{
    match amount {
        Amount::Number(numeral) => Ok(NumberedAmount::Number(*numeral)),
        Amount::Value {
            function: word,
            args,
        } => {
            let Placed { number, args } = function(alloc, tables, walk, word, args.items())?;
            Ok(NumberedAmount::Value {
                function: number,
                args,
            })
        }
    }
}

/// An effect with numbers; what is found in it is noted.
#[cycle(effects)]
#[tactic(auto, using(crate::proofs::FormLemmas::effect_laws, crate::proofs::FormLemmas::word_laws, crate::proofs::EffectLemmas::effect_laws))]
pub(crate) fn numbered_effect<'t>(
    alloc: Global,
    tables: &Tables<'t>,
    walk: &mut Walk<'t>,
    effect: &'t Effect,
) -> Result<NumberedEffect, NoMemory>
    ensures walk { OnOk result
        (walk.new ≡ with_tree tables.now.task.now (effect_uses effect.now) walk.old) }
    ensures made { IfOk result
        (λ made. made ≡ effect_of (numbers_of tables.now) effect.now walk.old.words) }
{
    match effect {
        Effect::Add { pred, args } => {
            let Placed { number, args } = atom(alloc, tables, walk, pred, args.items())?;
            Ok(NumberedEffect::Add {
                predicate: number,
                args,
            })
        }
        Effect::Del { pred, args } => {
            let Placed { number, args } = atom(alloc, tables, walk, pred, args.items())?;
            Ok(NumberedEffect::Del {
                predicate: number,
                args,
            })
        }
        Effect::All(parts) => {
            let parts = numbered_effects(alloc, tables, walk, parts.items())?;
            Ok(NumberedEffect::All(parts))
        }
        Effect::Each(variables, body) => {
            let ranges = walk.enter(alloc, tables, variables.items())?;
            let body = boxed_effect(alloc, tables, walk, body.get())?;
            walk.leave(variables.items());
            Ok(NumberedEffect::Each(ranges, body))
        }
        Effect::If(formula, body) => {
            let condition = boxed_formula(alloc, tables, walk, formula)?;
            let body = boxed_effect(alloc, tables, walk, body.get())?;
            Ok(NumberedEffect::If(condition.into_inner(), body))
        }
        Effect::Cost(at, amount) => {
            total_cost(alloc, tables, walk, *at)?;
            let amount = numbered_amount(alloc, tables, walk, amount)?;
            Ok(NumberedEffect::Cost(amount))
        }
    }
}

/// An effect with numbers, in a box.
#[cycle(effects)]
fn boxed_effect<'t>(
    alloc: Global,
    tables: &Tables<'t>,
    walk: &mut Walk<'t>,
    effect: &'t Effect,
) -> Result<Boxed<NumberedEffect>, NoMemory>
    ensures walk { OnOk result
        (walk.new ≡ with_tree tables.now.task.now (effect_uses effect.now) walk.old) }
    ensures made { IfOk result
        (λ made. made ≡ effect_of (numbers_of tables.now) effect.now walk.old.words) }
{
    let made = numbered_effect(alloc, tables, walk, effect)?;
    let boxed = Boxed::new(alloc, made)?;
    Ok(boxed)
}

/// Each effect with numbers.
#[cycle(effects)]
#[tactic(auto, using(crate::proofs::FormLemmas::more_laws))]
fn numbered_effects<'t>(
    alloc: Global,
    tables: &Tables<'t>,
    walk: &mut Walk<'t>,
    parts: &'t [Effect],
) -> Result<List<NumberedEffect>, NoMemory>
    ensures walk { OnOk result (walk.new
        ≡ with_tree tables.now.task.now (uses_of_each effect_uses parts.now) walk.old) }
    ensures made { IfOk result
        (λ made. made ≡ map
        (λ part. effect_of (numbers_of tables.now) part walk.old.words) parts.now) }
{
    let mut made = List::with_capacity(alloc, parts.len())?;
    for part in parts {
        made.push(numbered_effect(alloc, tables, walk, part)?)?;
    }
    Ok(made)
}
