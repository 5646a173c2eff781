//! Effects.

ghost use Rattle.std.specs.Prelude.{IsSome, Some, IfOk, ◌≡◌};
ghost use Rattle.p3_task.specs.Grammar.Effects.{function_value_in, amount_place, total_cost_place, each_form, when_form, delete_form, increase_form, effect_place, effect_or_empty_place};
ghost use Rattle.p3_task.specs.Grammar.Formulas.{atom_in};
ghost use Rattle.p3_outline.specs.Nodes.{expression_of, expressions_of};
ghost use Rattle.p3_syntax.specs.Reading.{Gives};
ghost use Rattle.p3_syntax.specs.Trees.{the_word};
ghost use Rattle.p3_syntax.specs.Effects.{no_increase, effect_found, effect_form, effects_at, the_atom, add_by, effect_by};

use crate::tree::formulas::formula;
use crate::tree::lists::{room_for, terms, variables};
use crate::tree::numerals::numeral;
use crate::tree::parts::{headed, only, pair, parts};
use crate::tree::words::{TextWord, copied, word};
use p3_base::{Boxed, List, NoMemory};
use p3_lexer::is;
use p3_outline::{Parts, View};
use p3_task::{Amount, Effect, Ref, Term};
use std::alloc::Global;

/// The value of a function other than the total cost.
fn function_value(alloc: Global, parts: Parts<'_, '_>) -> Result<Amount, NoMemory>
    requires tree { IsSome (function_value_in (expressions_of parts)) }
    ensures { Gives result (function_value_in (expressions_of parts.entry)) }
{
    let list = headed(parts);
    let function = copied(alloc, list.word)?;
    let args = terms(alloc, list.behind)?;
    Ok(Amount::Value { function, args })
}

/// By how much the total cost grows.
#[tactic(auto, using(crate::proofs::EffectLemmas::amount_word, crate::proofs::EffectLemmas::amount_list))]
fn amount(alloc: Global, view: View<'_, '_>) -> Result<Amount, NoMemory>
    requires tree { IsSome (amount_place (expression_of view)) }
    ensures { Gives result (amount_place (expression_of view.entry)) }
{
    match view.word() {
        Some(_) => Ok(Amount::Number(numeral(view)?)),
        None => function_value(alloc, parts(view)),
    }
}

/// `(total-cost)`.
fn total_cost<'a>(view: View<'_, 'a>) -> TextWord<'a>
    requires tree { IsSome (total_cost_place (expression_of view)) }
    ensures { total_cost_place (expression_of view.entry) ≡ Some (the_word result) }
{
    word(only(parts(view)))
}

/// A predicate at arguments.
#[derive(Drop)]
pub struct AtomParts {
    /// The predicate.
    pub pred: Ref,
    /// The arguments.
    pub args: List<Term>,
}

/// Reads an atom from its parts.
fn atom(alloc: Global, parts: Parts<'_, '_>) -> Result<AtomParts, NoMemory>
    requires tree { IsSome (atom_in (expressions_of parts)) }
    ensures { IfOk result (λ atom. atom_in (expressions_of parts.entry) ≡ Some (the_atom atom)) }
{
    let list = headed(parts);
    let pred = copied(alloc, list.word)?;
    let args = terms(alloc, list.behind)?;
    Ok(AtomParts { pred, args })
}

/// `(not (` name term* `))`.
#[tactic(auto, using(crate::proofs::TreeLemmas::raws_listed))]
fn delete_form(alloc: Global, behind: Parts<'_, '_>) -> Result<Effect, NoMemory>
    requires tree { IsSome (effect_form delete_form behind no_increase) }
    ensures { Gives result (effect_form delete_form behind.entry no_increase) }
{
    let AtomParts { pred, args } = atom(alloc, parts(only(behind)))?;
    Ok(Effect::Del { pred, args })
}

/// `(increase (total-cost)` amount `)`, where an increase may stand.
#[tactic(auto, using(crate::proofs::TreeLemmas::raws_listed))]
fn increase_form(alloc: Global, free: bool, behind: Parts<'_, '_>) -> Result<Effect, NoMemory>
    requires tree { IsSome (effect_form increase_form behind free) }
    ensures { Gives result (effect_form increase_form behind.entry free) }
{
    let (first, second) = pair(behind);
    let word = total_cost(first);
    let amount = amount(alloc, second)?;
    Ok(Effect::Cost(word.at, amount))
}

/// `(` name term* `)`.
#[tactic(auto, using(crate::proofs::TreeLemmas::raws_listed))]
fn add_form(alloc: Global, word: TextWord<'_>, behind: Parts<'_, '_>) -> Result<Effect, NoMemory>
    requires tree { IsSome (add_by (the_word word) behind no_increase) }
    ensures { Gives result
        (add_by (the_word word.entry) behind.entry no_increase) }
{
    let pred = copied(alloc, word)?;
    let args = terms(alloc, behind)?;
    Ok(Effect::Add { pred, args })
}

/// The effects of parts.
#[cycle(effect)]
fn effects(alloc: Global, free: bool, parts: Parts<'_, '_>) -> Result<List<Effect>, NoMemory>
    requires tree { IsSome (effects_at parts free) }
    ensures { Gives result (effects_at parts.entry free) }
{
    let mut left = parts;
    let mut found = room_for(alloc, parts)?;
    while let Some(view) = left.next() {
        found.push(effect_at(alloc, free, view)?)?;
    }
    Ok(found)
}

/// `(forall (` variable-list `)` effect `)`. No increase stands under it.
#[cycle(effect)]
#[tactic(auto, using(crate::proofs::LayerLemmas::pair_listed))]
fn each_form(alloc: Global, behind: Parts<'_, '_>) -> Result<Effect, NoMemory>
    requires tree { IsSome (effect_form each_form behind no_increase) }
    ensures { Gives result (effect_form each_form behind.entry no_increase) }
{
    let (first, second) = pair(behind);
    let variables = variables(alloc, first)?;
    let body = effect_at(alloc, false, second)?;
    Ok(Effect::Each(variables, Boxed::new(alloc, body)?))
}

/// `(when` formula effect `)`. No increase stands under it.
#[cycle(effect)]
#[tactic(auto, using(crate::proofs::EffectLemmas::when_listed))]
fn when_form(alloc: Global, behind: Parts<'_, '_>) -> Result<Effect, NoMemory>
    requires tree { IsSome (effect_form when_form behind no_increase) }
    ensures { Gives result (effect_form when_form behind.entry no_increase) }
{
    let (first, second) = pair(behind);
    let body = Boxed::new(alloc, effect_at(alloc, false, second)?)?;
    // The formula comes last, so that none has to be let go of: that is quicker to prove.
    let condition = formula(alloc, first)?;
    Ok(Effect::If(condition, body))
}

/// A list by its first word.
#[cycle(effect)]
fn by_word(
    alloc: Global,
    free: bool,
    head: TextWord<'_>,
    behind: Parts<'_, '_>,
) -> Result<Effect, NoMemory>
    requires tree { IsSome (effect_by head behind free) }
    ensures { Gives result (effect_by head.entry behind.entry free) }
{
    let word = head.text;
    if is(word, b"and") {
        Ok(Effect::All(effects(alloc, free, behind)?))
    } else if is(word, b"forall") {
        each_form(alloc, behind)
    } else if is(word, b"when") {
        when_form(alloc, behind)
    } else if is(word, b"not") {
        delete_form(alloc, behind)
    } else if is(word, b"increase") {
        increase_form(alloc, free, behind)
    } else {
        add_form(alloc, head, behind)
    }
}

/// An effect, in which an increase may stand where it is free.
#[cycle(effect)]
#[tactic(auto, using(crate::proofs::EffectLemmas::found_in_parts))]
fn effect_at(alloc: Global, free: bool, view: View<'_, '_>) -> Result<Effect, NoMemory>
    requires tree { IsSome (effect_found (expression_of view) free) }
    ensures { Gives result (effect_found (expression_of view.entry) free) }
{
    let list = headed(parts(view));
    by_word(alloc, free, list.word, list.behind)
}

/// An effect.
#[tactic(auto, using(crate::proofs::EffectLemmas::found_free))]
fn effect(alloc: Global, view: View<'_, '_>) -> Result<Effect, NoMemory>
    requires tree { IsSome (effect_place (expression_of view)) }
    ensures { Gives result (effect_place (expression_of view.entry)) }
{
    effect_at(alloc, true, view)
}

/// An effect, or `()`.
pub fn effect_or_empty(alloc: Global, view: View<'_, '_>) -> Result<Effect, NoMemory>
    requires tree { IsSome (effect_or_empty_place (expression_of view)) }
    ensures { Gives result (effect_or_empty_place (expression_of view.entry)) }
{
    let mut parts = parts(view);
    match parts.next() {
        None => Ok(Effect::All(List::new(alloc))),
        Some(_) => effect(alloc, view),
    }
}
