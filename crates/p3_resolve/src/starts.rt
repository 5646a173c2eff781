//! The initial state with numbers.

ghost use Rattle.std.specs.Prelude.{◌≡◌, ◌++◌, ◌∷◌, [], filter_map, OnOk, IfOk};
ghost use Rattle.p3_numbers.specs.Places.{number_in, numbered_terms};
ghost use Rattle.p3_numbers.specs.Slots.{value_of, values_of};
ghost use Rattle.p3_numbers.specs.Starts.{entry_fact as fact_of, entry_value as value_in};
ghost use Rattle.p3_task.specs.Uses.{AtomUse, FunctionUse};
ghost use Rattle.p3_resolve.specs.Spots.{header_step};
ghost use Rattle.p3_resolve.specs.Steps.{arguments_step};
ghost use Rattle.p3_resolve.specs.Tables.{IsNumbered, header_of};
ghost use Rattle.p3_resolve.specs.NumbersOf.{numbers_of};
ghost use Rattle.p3_resolve.specs.Walk.{uses_of_each, uses_of_entry, with_found, with_tree};

use crate::atoms::word_noted;
use crate::spot::FirstOffences;
use crate::tables::{Declared, Tables};
use crate::terms::argument;
use crate::walk::Walk;
use p3_base::{List, NoMemory};
use p3_numbers::{NumberedArgument, NumberedFact, NumberedValue};
use p3_task::{Init, Numeral, Ref, Term};
use std::alloc::Global;

/// The object that an argument is, where no variable has an object.
fn object_of(argument: NumberedArgument) -> u32
    ensures { result ≡ value_of [] argument }
{
    match argument {
        NumberedArgument::Slot(_) => 0,
        NumberedArgument::Object(number) => number,
    }
}

/// The objects that the arguments of a header are.
#[tactic(auto, using(crate::proofs::TermLemmas::argument_laws))]
fn objects(
    alloc: Global,
    tables: &Tables,
    walk: &Walk,
    found: &mut FirstOffences,
    declared: Option<Declared>,
    args: &[Term],
) -> Result<List<u32>, NoMemory>
    requires { IsNumbered tables.now.task.now declared }
    ensures found { OnOk result (found.new ≡ arguments_step
        tables.now.task.now
        walk.now.scope
        (header_of declared.entry)
        found.old
        args.now) }
    ensures made { IfOk result (λ made. made
        ≡ values_of [] (numbered_terms (numbers_of tables.now) walk.now.words args.now)) }
{
    let mut made = List::with_capacity(alloc, args.len())?;
    for place in 0..args.len() {
        let argument = argument(tables, walk, found, declared, place, &args[place])?;
        made.push(object_of(argument))?;
    }
    Ok(made)
}

/// The objects at which a name stands that was looked up; what is found of them is noted.
#[tactic(auto, unfolding(crate::specs::Steps::arguments_step))]
fn at_objects<'t>(
    alloc: Global,
    tables: &Tables<'t>,
    walk: &mut Walk<'t>,
    declared: Option<Declared<'t>>,
    word: &Ref,
    args: &[Term],
) -> Result<List<u32>, NoMemory>
    requires { IsNumbered tables.now.task.now declared }
    ensures walk { OnOk result (walk.new ≡ with_found (header_step
        tables.now.task.now
        walk.old.scope
        walk.old.found
        (header_of declared.entry)
        word.now
        args.now) walk.old) }
    ensures made { IfOk result (λ made. made
        ≡ values_of [] (numbered_terms (numbers_of tables.now) walk.old.words args.now)) }
{
    let mut found = word_noted(walk.found, declared, word, args);
    let made = objects(alloc, tables, walk, &mut found, declared, args)?;
    walk.found = found;
    Ok(made)
}

/// An atom of the initial state.
#[tactic(auto, using(crate::proofs::HeaderLemmas::header_laws))]
fn fact<'t>(
    alloc: Global,
    tables: &Tables<'t>,
    walk: &mut Walk<'t>,
    pred: &Ref,
    args: &[Term],
) -> Result<NumberedFact, NoMemory>
    ensures walk { OnOk result (walk.new ≡ with_tree tables.now.task.now
        (λ scope. AtomUse pred.now args.now scope ∷ []) walk.old) }
    ensures made { IfOk result (λ made. let N = numbers_of tables.now in made ≡ record {
      predicate = number_in N.predicates pred.now.name;
      objects = values_of [] (numbered_terms N walk.old.words args.now);
    }) }
{
    let found = tables.predicate(&pred.name)?;
    let objects = at_objects(alloc, tables, walk, found.declared, pred, args)?;
    Ok(NumberedFact {
        predicate: found.number,
        objects,
    })
}

/// A value that the initial state gives.
#[tactic(auto, using(crate::proofs::HeaderLemmas::header_laws))]
fn value<'t>(
    alloc: Global,
    tables: &Tables<'t>,
    walk: &mut Walk<'t>,
    function: &Ref,
    args: &[Term],
    number: Numeral,
) -> Result<NumberedValue, NoMemory>
    ensures walk { OnOk result (walk.new ≡ with_tree tables.now.task.now
        (λ scope. FunctionUse function.now args.now scope ∷ []) walk.old) }
    ensures made { IfOk result (λ made. let N = numbers_of tables.now in made ≡ record {
      function = number_in N.functions function.now.name;
      objects = values_of [] (numbered_terms N walk.old.words args.now);
      number = number;
    }) }
{
    let found = tables.function(&function.name)?;
    let objects = at_objects(alloc, tables, walk, found.declared, function, args)?;
    Ok(NumberedValue {
        function: found.number,
        objects,
        number,
    })
}

/// The initial state with numbers.
#[derive(Drop)]
pub(crate) struct InitialState {
    /// The atoms that are true.
    pub(crate) facts: List<NumberedFact>,
    /// The values that are given.
    pub(crate) values: List<NumberedValue>,
}

/// An entry of the initial state more, outside all variables; what is found in it is noted.
#[tactic(auto, using(crate::proofs::StartLemmas::entry_laws))]
fn entry<'t>(
    alloc: Global,
    tables: &Tables<'t>,
    walk: &mut Walk<'t>,
    state: &mut InitialState,
    entry: &Init,
) -> Result<(), NoMemory>
    requires words { walk.old.words ≡ [] }
    requires scope { walk.old.scope ≡ [] }
    ensures walk { OnOk result
        (walk.new ≡ with_tree tables.now.task.now (uses_of_entry entry.now) walk.old) }
    ensures facts { OnOk result (state.new.facts ≡ state.old.facts
        ++ filter_map (λ one. one) (fact_of (numbers_of tables.now) entry.now ∷ [])) }
    ensures values { OnOk result (state.new.values ≡ state.old.values
        ++ filter_map (λ one. one) (value_in (numbers_of tables.now) entry.now ∷ [])) }
{
    match entry {
        Init::True { pred, args } => {
            let made = fact(alloc, tables, walk, pred, args.items())?;
            state.facts.push(made)?;
            Ok(())
        }
        Init::False { pred, args } => {
            fact(alloc, tables, walk, pred, args.items())?;
            Ok(())
        }
        Init::Value {
            function,
            args,
            number,
        } => {
            let made = value(alloc, tables, walk, function, args.items(), *number)?;
            state.values.push(made)?;
            Ok(())
        }
    }
}

/// The initial state, outside all variables; what is found in it is noted.
#[tactic(auto, using(crate::proofs::StartLemmas::start_laws, crate::proofs::FormLemmas::more_laws, crate::proofs::FormLemmas::word_laws))]
pub(crate) fn initial_state<'t>(
    alloc: Global,
    tables: &Tables<'t>,
    walk: &mut Walk<'t>,
    entries: &[Init],
) -> Result<InitialState, NoMemory>
    requires words { walk.old.words ≡ [] }
    requires scope { walk.old.scope ≡ [] }
    ensures walk { OnOk result (walk.new
        ≡ with_tree tables.now.task.now (uses_of_each uses_of_entry entries.now) walk.old) }
    ensures facts { IfOk result
        (λ made. made.facts ≡ filter_map (fact_of (numbers_of tables.now)) entries.now) }
    ensures values { IfOk result
        (λ made. made.values ≡ filter_map (value_in (numbers_of tables.now)) entries.now) }
{
    let mut made = InitialState {
        facts: List::new(alloc),
        values: List::new(alloc),
    };
    for one in entries {
        entry(alloc, tables, walk, &mut made, one)?;
    }
    Ok(made)
}
