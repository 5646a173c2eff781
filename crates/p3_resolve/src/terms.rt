//! Terms as arguments, each looked up once, and the ranges of variables.

ghost use Rattle.std.specs.Prelude.{◌≡◌, find, option_map, OnOk, IfOk};
ghost use Rattle.p3_numbers.specs.Scopes.{scope_seen};
ghost use Rattle.p3_numbers.specs.Places.{number_in, slot_or_first, numbered_term, numbered_terms, ranges_of};
ghost use Rattle.p3_task.specs.Names.{same_name};
ghost use Rattle.p3_task.specs.Types.{type_names};
ghost use Rattle.p3_task.specs.Uses.{Scope as Seen};
ghost use Rattle.p3_task.specs.declared.term.Term.TheVariants.{Const, Var};
ghost use Rattle.p3_resolve.specs.Fitting.{object_fits_at};
ghost use Rattle.p3_resolve.specs.Steps.{argument_step, arguments_step, note_step, variable_fits_beside};
ghost use Rattle.p3_resolve.specs.Tables.{IsNumbered, header_of, parameter_of};
ghost use Rattle.p3_resolve.specs.NumbersOf.{numbers_of};

use crate::spot::{FirstOffences, unless};
use crate::tables::{Declared, Tables};
use crate::walk::Walk;
use p3_base::{List, Name, NoMemory, as_number};
use p3_numbers::{NumberedArgument, Scope};
use p3_task::{Ref, Term, Typed};
use std::alloc::Global;

/// The variable in scope that has the name.
fn variable_of<'t>(scope: &Scope<'t>, name: &Name) -> Option<&'t Typed>
    ensures { option_map
        (λ variable. (variable.now.name.name, type_names variable.now.types))
        result
        ≡ find (λ entry. same_name entry.0 name.now) (scope_seen scope.now) }
{
    match scope.find(name) {
        None => None,
        Some(slot) => Some(scope.at(slot)),
    }
}

/// The argument of a slot.
fn argument_of(slot: Option<usize>) -> Result<NumberedArgument, NoMemory>
    ensures { IfOk result (λ argument. argument ≡ slot_or_first slot) }
{
    match slot {
        Some(place) => Ok(NumberedArgument::Slot(as_number(place)?)),
        None => Ok(NumberedArgument::Slot(0)),
    }
}

/// Whether a variable fits the parameter at a place of a header, where there is one; what is not in
/// scope does.
#[tactic(auto, using(crate::proofs::TermLemmas::beside_laws))]
fn variable_fits(
    tables: &Tables,
    declared: Option<Declared>,
    place: usize,
    variable: Option<&Typed>,
) -> bool
    requires { IsNumbered tables.now.task.now declared }
    ensures { result ≡ variable_fits_beside
        tables.now.task.now
        (parameter_of declared.entry place)
        (option_map
        (λ variable. (variable.now.name.name, type_names variable.now.types))
        variable.entry) }
{
    let Some(header) = declared else {
        return true;
    };
    match variable {
        None => true,
        Some(found) => tables.fits.variable_fits(header.number, place, found),
    }
}

/// Whether the object with the number fits the parameter at a place of a header, where there is
/// one.
#[tactic(auto, using(crate::proofs::TermLemmas::beside_laws))]
fn object_fits(
    tables: &Tables,
    declared: Option<Declared>,
    place: usize,
    number: u32,
    object: &Name,
) -> bool
    requires declared { IsNumbered tables.now.task.now declared }
    requires number { number ≡ number_in (numbers_of tables.now).objects object.now }
    ensures { result ≡ object_fits_at
        tables.now.task.now
        (parameter_of declared.entry place)
        object.now }
{
    match declared {
        None => true,
        Some(header) => tables
            .fits
            .object_fits(header.number, place, number as usize, object),
    }
}

/// A word that was looked up: it is noted where it is unknown, and where it does not fit.
fn note(found: &mut FirstOffences, is_known: bool, fits: bool, word: &Ref)
    ensures { found.new ≡ note_step found.old is_known fits word.now }
{
    found.unknown = unless(found.unknown, is_known, word);
    found.clash = unless(found.clash, fits, word);
}

/// A variable as an argument beside a parameter.
#[tactic(auto, using(crate::proofs::TermLemmas::variable_laws))]
fn variable_argument(
    tables: &Tables,
    walk: &Walk,
    found: &mut FirstOffences,
    declared: Option<Declared>,
    place: usize,
    variable: &Ref,
) -> Result<NumberedArgument, NoMemory>
    requires { IsNumbered tables.now.task.now declared }
    ensures found { OnOk result (found.new ≡ argument_step
        tables.now.task.now
        walk.now.scope
        (parameter_of declared.entry place)
        found.old
        (Var variable.now)) }
    ensures made { IfOk result
        (λ made. made ≡ numbered_term (numbers_of tables.now) walk.now.words (Var variable.now)) }
{
    let declaration = variable_of(&walk.scope, &variable.name);
    let fits = variable_fits(tables, declared, place, declaration);
    note(found, declaration.is_some(), fits, variable);
    let made = argument_of(walk.slots.find(&variable.name))?;
    Ok(made)
}

/// An object as an argument beside a parameter.
#[tactic(auto, using(crate::proofs::TermLemmas::step_laws))]
fn object_argument(
    tables: &Tables,
    found: &mut FirstOffences,
    declared: Option<Declared>,
    place: usize,
    object: &Ref,
) -> Result<u32, NoMemory>
    requires { IsNumbered tables.now.task.now declared }
    ensures found { (scope : Seen) → OnOk result (found.new ≡ argument_step
        tables.now.task.now
        scope
        (parameter_of declared.entry place)
        found.old
        (Const object.now)) }
    ensures made { IfOk result
        (λ made. made ≡ number_in (numbers_of tables.now).objects object.now.name) }
{
    let known = tables.object(&object.name)?;
    let fits = object_fits(tables, declared, place, known.number, &object.name);
    note(found, known.is_declared, fits, object);
    Ok(known.number)
}

/// A term as an argument beside the parameter at a place of a header; it is noted where it is
/// unknown, and where it does not fit.
pub(crate) fn argument(
    tables: &Tables,
    walk: &Walk,
    found: &mut FirstOffences,
    declared: Option<Declared>,
    place: usize,
    term: &Term,
) -> Result<NumberedArgument, NoMemory>
    requires { IsNumbered tables.now.task.now declared }
    ensures found { OnOk result (found.new ≡ argument_step
        tables.now.task.now
        walk.now.scope
        (parameter_of declared.entry place)
        found.old
        term.now) }
    ensures made { IfOk result
        (λ made. made ≡ numbered_term (numbers_of tables.now) walk.now.words term.now) }
{
    match term {
        Term::Var(variable) => variable_argument(tables, walk, found, declared, place, variable),
        Term::Const(object) => {
            let number = object_argument(tables, found, declared, place, object)?;
            Ok(NumberedArgument::Object(number))
        }
    }
}

/// The arguments of a header.
#[tactic(auto, using(crate::proofs::TermLemmas::argument_laws))]
pub(crate) fn arguments(
    alloc: Global,
    tables: &Tables,
    walk: &Walk,
    found: &mut FirstOffences,
    declared: Option<Declared>,
    args: &[Term],
) -> Result<List<NumberedArgument>, NoMemory>
    requires { IsNumbered tables.now.task.now declared }
    ensures found { OnOk result (found.new ≡ arguments_step
        tables.now.task.now
        walk.now.scope
        (header_of declared.entry)
        found.old
        args.now) }
    ensures made { IfOk result
        (λ made. made ≡ numbered_terms (numbers_of tables.now) walk.now.words args.now) }
{
    let mut made = List::with_capacity(alloc, args.len())?;
    for place in 0..args.len() {
        made.push(argument(tables, walk, found, declared, place, &args[place])?)?;
    }
    Ok(made)
}

/// The ranges of variables.
pub(crate) fn ranges<'t>(
    alloc: Global,
    tables: &Tables<'t>,
    variables: &'t [Typed],
) -> Result<List<u32>, NoMemory>
    ensures { IfOk result (λ ranges. ranges ≡ ranges_of (numbers_of tables.now) variables.now) }
{
    let mut ranges = List::with_capacity(alloc, variables.len())?;
    for variable in variables {
        ranges.push(tables.range_of(alloc, variable.types.items())?)?;
    }
    Ok(ranges)
}
