//! Predicates and functions at arguments, with numbers.

ghost use Rattle.std.specs.Prelude.{◌≡◌, [], ◌∷◌, OnOk, IfOk};
ghost use Rattle.p3_numbers.specs.Places.{number_in, numbered_terms};
ghost use Rattle.p3_task.specs.Names.{total_cost};
ghost use Rattle.p3_task.specs.Uses.{Scope, AtomUse, FunctionUse};
ghost use Rattle.p3_resolve.specs.Spots.{header_step, use_step};
ghost use Rattle.p3_resolve.specs.Steps.{word_step};
ghost use Rattle.p3_resolve.specs.Tables.{IsNumbered, header_of};
ghost use Rattle.p3_resolve.specs.NumbersOf.{numbers_of};
ghost use Rattle.p3_resolve.specs.Walk.{with_tree, with_found};

use crate::spot::{FirstOffences, unless};
use crate::tables::{Declared, Tables};
use crate::terms::arguments;
use crate::walk::Walk;
use p3_base::{List, Name, NoMemory};
use p3_numbers::NumberedArgument;
use p3_task::{Ref, Term};
use std::alloc::Global;

/// A predicate or a function by its number, at arguments.
#[derive(Drop)]
pub(crate) struct Placed {
    pub(crate) number: u32,
    pub(crate) args: List<NumberedArgument>,
}

/// The word of a header that was looked up: it is noted where it is unknown, and where it has
/// another number of arguments than there are parameters.
pub(crate) fn word_noted(
    found: FirstOffences,
    declared: Option<Declared>,
    word: &Ref,
    args: &[Term],
) -> FirstOffences
    ensures { result ≡ word_step found (header_of declared.entry) word.now args.now }
{
    let unknown = unless(found.unknown, declared.is_some(), word);
    let miscount = match declared {
        None => found.miscount,
        Some(one) => {
            let is_counted = one.header.params.len() == args.len();
            unless(found.miscount, is_counted, word)
        }
    };
    FirstOffences {
        duplicate: found.duplicate,
        unknown,
        miscount,
        clash: found.clash,
    }
}

/// The arguments of a name that was looked up; what is found of them is noted.
#[tactic(auto, unfolding(crate::specs::Steps::arguments_step))]
fn at_arguments<'t>(
    alloc: Global,
    tables: &Tables<'t>,
    walk: &mut Walk<'t>,
    declared: Option<Declared<'t>>,
    word: &Ref,
    args: &[Term],
) -> Result<List<NumberedArgument>, NoMemory>
    requires { IsNumbered tables.now.task.now declared }
    ensures walk { OnOk result (walk.new ≡ with_found (header_step
        tables.now.task.now
        walk.old.scope
        walk.old.found
        (header_of declared.entry)
        word.now
        args.now) walk.old) }
    ensures args { IfOk result
        (λ made. made ≡ numbered_terms (numbers_of tables.now) walk.old.words args.now) }
{
    let mut found = word_noted(walk.found, declared, word, args);
    let made = arguments(alloc, tables, walk, &mut found, declared, args)?;
    walk.found = found;
    Ok(made)
}

/// A predicate at arguments.
#[tactic(auto, using(crate::proofs::HeaderLemmas::header_laws))]
pub(crate) fn atom<'t>(
    alloc: Global,
    tables: &Tables<'t>,
    walk: &mut Walk<'t>,
    pred: &Ref,
    args: &[Term],
) -> Result<Placed, NoMemory>
    ensures walk { OnOk result (walk.new ≡ with_tree tables.now.task.now
        (λ scope. AtomUse pred.now args.now scope ∷ []) walk.old) }
    ensures number { IfOk result
        (λ made. made.number ≡ number_in (numbers_of tables.now).predicates pred.now.name) }
    ensures args { IfOk result
        (λ made. made.args ≡ numbered_terms (numbers_of tables.now) walk.old.words args.now) }
{
    let found = tables.predicate(&pred.name)?;
    let args = at_arguments(alloc, tables, walk, found.declared, pred, args)?;
    Ok(Placed {
        number: found.number,
        args,
    })
}

/// A function at arguments.
#[tactic(auto, using(crate::proofs::HeaderLemmas::header_laws))]
pub(crate) fn function<'t>(
    alloc: Global,
    tables: &Tables<'t>,
    walk: &mut Walk<'t>,
    function: &Ref,
    args: &[Term],
) -> Result<Placed, NoMemory>
    ensures walk { OnOk result (walk.new ≡ with_tree tables.now.task.now
        (λ scope. FunctionUse function.now args.now scope ∷ []) walk.old) }
    ensures number { IfOk result
        (λ made. made.number ≡ number_in (numbers_of tables.now).functions function.now.name) }
    ensures args { IfOk result
        (λ made. made.args ≡ numbered_terms (numbers_of tables.now) walk.old.words args.now) }
{
    let found = tables.function(&function.name)?;
    let args = at_arguments(alloc, tables, walk, found.declared, function, args)?;
    Ok(Placed {
        number: found.number,
        args,
    })
}

/// The function of the total cost, at the offset.
fn total_cost_word(alloc: Global, at: u32) -> Result<Ref, NoMemory>
    ensures { IfOk result (λ word. word ≡ record { name = total_cost; at = at }) }
{
    let name = Name::of(alloc, b"total-cost".as_slice())?;
    Ok(Ref { name, at })
}

/// What is found where the function of the total cost stands at the offset.
pub(crate) fn total_cost_noted(
    alloc: Global,
    tables: &Tables,
    found: FirstOffences,
    at: u32,
) -> Result<FirstOffences, NoMemory>
    ensures { (scope : Scope) → IfOk result
        (λ after. after ≡ use_step tables.now.task.now found
        (FunctionUse (record { name = total_cost; at = at }) [] scope)) }
{
    let word = total_cost_word(alloc, at)?;
    let looked = tables.function(&word.name)?;
    let none: List<Term> = List::new(alloc);
    Ok(word_noted(found, looked.declared, &word, none.items()))
}

/// The function of the total cost in an effect, at the offset.
#[tactic(auto, unfolding(crate::specs::Walk::with_tree))]
pub(crate) fn total_cost<'t>(
    alloc: Global,
    tables: &Tables<'t>,
    walk: &mut Walk<'t>,
    at: u32,
) -> Result<(), NoMemory>
    ensures { OnOk result (walk.new ≡ with_tree tables.now.task.now
        (λ scope. FunctionUse (record { name = total_cost; at = at }) [] scope ∷ []) walk.old) }
{
    walk.found = total_cost_noted(alloc, tables, walk.found, at)?;
    Ok(())
}
