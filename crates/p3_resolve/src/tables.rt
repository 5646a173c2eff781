//! What a task declares, found by hashing, each with its number.

ghost use Rattle.std.specs.Prelude.{◌≡◌, ◌+◌, ◌≤◌, ◌<◌, ◌^◌, length, option_map, slice_get, IfOk};
ghost use Rattle.std.specs.Result.{MatchResult};
ghost use Rattle.p3_numbers.specs.Places.{number_in, range_of as range_in};
ghost use Rattle.p3_numbers.specs.Tasks.{header_names};
ghost use Rattle.p3_task.specs.Names.{has_name};
ghost use Rattle.p3_task.specs.Types.{declared_objects};
ghost use Rattle.p3_task.specs.Offences.{is_declared, declared_types, header_named};
ghost use Rattle.p3_task.specs.PreferenceNames.{preference_names, ordered_names};
ghost use Rattle.p3_resolve.specs.Listed.{lists_in, task_lists};
ghost use Rattle.p3_resolve.specs.Ranges.{HaveRanges, lists_once};
ghost use Rattle.p3_resolve.specs.Tables.{AreCounted, Has, IsNumbered, IsNumberedFrom, header_of};

use crate::declared_names::type_table;
use crate::firsts::Firsts;
use crate::fits::Fits;
use crate::names_of_task::{DeclaredInTrees, NameTable, copied_headers, declared_in_trees};
use crate::ranges::Ranges;
use p3_base::{List, Name, NoMemory, TooLarge, as_number};
use p3_hierarchy::{Kinds, Objects};
use p3_numbers::{Names, Numbers};
use p3_task::{Header, Ref, Task};
use std::alloc::Global;

/// A predicate or a function of a task.
#[derive(Clone, Copy)]
pub(crate) struct Declared<'t> {
    /// Its number among all of them, the predicates first.
    pub(crate) number: usize,
    /// Where it is declared.
    pub(crate) header: &'t Header,
}

/// A predicate's or a function's name that was looked up.
#[derive(Clone, Copy)]
pub(crate) struct HeaderFound<'t> {
    /// Its number among those of its sort, which is their number where none has the name.
    pub(crate) number: u32,
    /// Where it is declared, if it is.
    pub(crate) declared: Option<Declared<'t>>,
}

/// A name of an object or of a preference that was looked up.
#[derive(Clone, Copy)]
pub(crate) struct NameFound {
    /// Its number among those of its sort, which is their number where none has the name.
    pub(crate) number: u32,
    /// Whether it is declared.
    pub(crate) is_declared: bool,
}

/// What a task declares.
#[derive(Drop)]
pub(crate) struct Tables<'t> {
    pub(crate) task: &'t Task,
    predicates: Firsts<'t, Header>,
    functions: Firsts<'t, Header>,
    objects: Objects<'t>,
    types: Names,
    preferences: NameTable,
    pub(crate) fits: Fits<'t>,
    pub(crate) lists: Ranges<'t>,
    ghost predicates_told: { predicates.items.now ≡ task.now.domain.predicates },
    ghost functions_told: { functions.items.now ≡ task.now.domain.functions },
    ghost objects_told: { objects.task.now ≡ task.now },
    ghost types_told: { Has types (declared_types task.now) },
    ghost preferences_told: { preferences.names ≡ ordered_names task.now },
    ghost fits_told: { fits.objects.task.now ≡ task.now },
    ghost counted: { AreCounted task.now },
}

/// The numbers of predicates and functions can be told.
fn are_counted(task: &Task) -> Result<(), TooLarge>
    ensures { MatchResult result (λ _. AreCounted task.now)
        (λ _. 2 ^ 64 ≤ length task.now.domain.predicates + length task.now.domain.functions) }
{
    let predicates = task.domain.predicates.len();
    match predicates.checked_add(task.domain.functions.len()) {
        None => Err(TooLarge),
        Some(_) => Ok(()),
    }
}

/// A name, looked up.
#[tactic(auto, using(p3_numbers::proofs::NameLemmas::number_laws, crate::proofs::TableLemmas::known_laws))]
fn name_found(names: &Names, name: &Name) -> Result<NameFound, NoMemory>
    ensures number { IfOk result (λ found. found.number ≡ number_in names.now name.now) }
    ensures declared { IfOk result (λ found. found.is_declared ≡ has_name names.now name.now) }
{
    match names.number_of(name) {
        Some(place) => Ok(NameFound {
            number: as_number(place)?,
            is_declared: true,
        }),
        None => Ok(NameFound {
            number: as_number(names.len())?,
            is_declared: false,
        }),
    }
}

/// The header at a place, if there is one.
fn header_at<'t>(headers: &'t [Header], place: usize) -> Option<&'t Header>
    ensures { option_map (λ header. header.now) result ≡ slice_get headers.now place }
{
    headers.get(place)
}

/// A header, looked up; it is numbered behind others.
#[tactic(auto, using(crate::proofs::TableLemmas::header_laws))]
fn header_found<'t>(
    headers: &Firsts<'t, Header>,
    others: usize,
    name: &Name,
) -> Result<HeaderFound<'t>, NoMemory>
    requires { others + length headers.now.items.now < 2 ^ 64 }
    ensures number { IfOk result
        (λ found. found.number ≡ number_in (header_names headers.now.items.now) name.now) }
    ensures header { IfOk result (λ found. header_of found.declared
        ≡ header_named headers.now.items.now name.now) }
    ensures declared { IfOk result
        (λ found. IsNumberedFrom others headers.now.items.now found.declared) }
{
    let place = headers.place(name);
    let number = as_number(place)?;
    match header_at(headers.items, place) {
        None => Ok(HeaderFound {
            number,
            declared: None,
        }),
        Some(header) => Ok(HeaderFound {
            number,
            declared: Some(Declared {
                number: others + place,
                header,
            }),
        }),
    }
}

/// The names of a task's headers and types.
#[derive(Drop)]
struct Words<'t> {
    task: &'t Task,
    predicates: Firsts<'t, Header>,
    functions: Firsts<'t, Header>,
    types: Names,
    ghost predicates_told: { predicates.items.now ≡ task.now.domain.predicates },
    ghost functions_told: { functions.items.now ≡ task.now.domain.functions },
    ghost types_told: { Has types (declared_types task.now) },
}

/// The names of a task's headers and types.
#[tactic(auto, using(crate::proofs::TableLemmas::table_laws))]
fn words_of<'t>(alloc: Global, task: &'t Task) -> Result<Words<'t>, NoMemory>
    ensures { IfOk result (λ words. words.task.now ≡ task.now) }
{
    let predicates = Firsts::of(alloc, task.domain.predicates.items())?;
    let functions = Firsts::of(alloc, task.domain.functions.items())?;
    let types = type_table(alloc, task)?;
    Ok(Words {
        task,
        predicates,
        functions,
        types,
    })
}

/// The objects of a task, and what is of which types.
#[derive(Drop)]
struct Typing<'t> {
    task: &'t Task,
    objects: Objects<'t>,
    ranges: Ranges<'t>,
    fits: Fits<'t>,
    ghost objects_told: { objects.task.now ≡ task.now },
    ghost fits_told: { fits.objects.task.now ≡ task.now },
}

/// The objects of a task, and what is of the listed types and of those of parameters.
fn typing_of<'t>(alloc: Global, task: &'t Task, lists: &[&'t [Ref]]) -> Result<Typing<'t>, NoMemory>
    ensures task { IfOk result (λ typing. typing.task.now ≡ task.now) }
    ensures types { IfOk result
        (λ typing. typing.ranges.types ≡ lists_once (lists_in lists.now)) }
    ensures ranges { IfOk result
        (λ typing. HaveRanges task.now typing.ranges.types typing.ranges.ranges) }
{
    let kinds = Kinds::of(alloc, task)?;
    let objects = Objects::of(alloc, task)?;
    let ranges = Ranges::of(alloc, &kinds, &objects, lists)?;
    let fits = Fits::of(alloc, task, &kinds, &objects)?;
    Ok(Typing {
        task,
        objects,
        ranges,
        fits,
    })
}

/// Copies of the names of headers.
#[derive(Drop)]
struct HeaderNames {
    predicates: List<Name>,
    functions: List<Name>,
}

/// Copies of the names of a task's headers.
fn copied_headers_of(alloc: Global, task: &Task) -> Result<HeaderNames, NoMemory>
    ensures predicates { IfOk result
        (λ names. names.predicates ≡ header_names task.now.domain.predicates) }
    ensures functions { IfOk result
        (λ names. names.functions ≡ header_names task.now.domain.functions) }
{
    let predicates = copied_headers(alloc, task.domain.predicates.items())?;
    let functions = copied_headers(alloc, task.domain.functions.items())?;
    Ok(HeaderNames {
        predicates,
        functions,
    })
}

impl<'t> Tables<'t> {
    ghost use Rattle.p3_resolve.specs.NumbersOf.{numbers_of};

    /// The tables of these parts.
    fn joined(
        task: &'t Task,
        words: Words<'t>,
        typing: Typing<'t>,
        preferences: NameTable,
    ) -> Tables<'t>
        requires words { words.task.now ≡ task.now }
        requires typing { typing.task.now ≡ task.now }
        requires preferences { preferences.names ≡ ordered_names task.now }
        requires counted { AreCounted task.now }
        ensures task { result.task.now ≡ task.now }
        ensures lists { result.lists ≡ typing.entry.ranges }
    {
        let Words {
            predicates,
            functions,
            types,
            ..
        } = words;
        let Typing {
            objects,
            ranges,
            fits,
            ..
        } = typing;
        Tables {
            task,
            predicates,
            functions,
            objects,
            types,
            preferences,
            fits,
            lists: ranges,
        }
    }

    /// The tables of a task.
    pub(crate) fn of(alloc: Global, task: &'t Task) -> Result<Tables<'t>, NoMemory>
        ensures task { IfOk result (λ tables. tables.task.now ≡ task.now) }
        ensures types { IfOk result
            (λ tables. tables.lists.types ≡ lists_once (task_lists task.now)) }
        ensures ranges { IfOk result
            (λ tables. HaveRanges task.now tables.lists.types tables.lists.ranges) }
    {
        are_counted(task)?;
        let words = words_of(alloc, task)?;
        let DeclaredInTrees { lists, preferences } = declared_in_trees(alloc, task)?;
        let typing = typing_of(alloc, task, &lists)?;
        Ok(Tables::joined(task, words, typing, preferences))
    }

    /// A predicate's name, looked up.
    pub(crate) fn predicate(&self, name: &Name) -> Result<HeaderFound<'t>, NoMemory>
        ensures number { IfOk result
            (λ found. found.number ≡ number_in (numbers_of self.now).predicates name.now) }
        ensures header { IfOk result (λ found. header_of found.declared
            ≡ header_named self.now.task.now.domain.predicates name.now) }
        ensures declared { IfOk result (λ found. IsNumbered self.now.task.now found.declared) }
    {
        let found = header_found(&self.predicates, 0, name)?;
        Ok(found)
    }

    /// A function's name, looked up.
    pub(crate) fn function(&self, name: &Name) -> Result<HeaderFound<'t>, NoMemory>
        ensures number { IfOk result
            (λ found. found.number ≡ number_in (numbers_of self.now).functions name.now) }
        ensures header { IfOk result (λ found. header_of found.declared
            ≡ header_named self.now.task.now.domain.functions name.now) }
        ensures declared { IfOk result (λ found. IsNumbered self.now.task.now found.declared) }
    {
        let others = self.task.domain.predicates.len();
        let found = header_found(&self.functions, others, name)?;
        Ok(found)
    }

    /// Whether a type has the name.
    pub(crate) fn is_type(&self, name: &Name) -> bool
        ensures { result ≡ has_name (declared_types self.now.task.now) name.now }
    {
        self.types.has(name.bytes())
    }

    /// An object's name, looked up.
    #[tactic(auto, using(crate::proofs::TableLemmas::declared_laws))]
    pub(crate) fn object(&self, name: &Name) -> Result<NameFound, NoMemory>
        ensures number { IfOk result
            (λ found. found.number ≡ number_in (numbers_of self.now).objects name.now) }
        ensures declared { IfOk result (λ found. found.is_declared
            ≡ is_declared (declared_objects self.now.task.now) name.now) }
    {
        let found = name_found(self.objects.names(), name)?;
        Ok(found)
    }

    /// A preference's name, looked up.
    #[tactic(auto, using(crate::proofs::TableLemmas::declared_laws))]
    pub(crate) fn preference(&self, name: &Name) -> Result<NameFound, NoMemory>
        ensures number { IfOk result
            (λ found. found.number ≡ number_in (numbers_of self.now).preferences name.now) }
        ensures declared { IfOk result (λ found. found.is_declared
            ≡ has_name (preference_names self.now.task.now) name.now) }
    {
        let found = name_found(&self.preferences.found, name)?;
        Ok(found)
    }

    /// The range of the types.
    pub(crate) fn range_of(&self, alloc: Global, types: &'t [Ref]) -> Result<u32, NoMemory>
        ensures { IfOk result (λ range. range ≡ range_in (numbers_of self.now) types.now) }
    {
        self.lists.number_of(alloc, types)
    }

    /// What the numbers stand for, beside these names of headers.
    fn with_headers(self, headers: HeaderNames) -> Numbers
        requires predicates { headers.predicates
            ≡ header_names self.task.now.domain.predicates }
        requires functions { headers.functions
            ≡ header_names self.task.now.domain.functions }
        ensures { result ≡ numbers_of self.entry }
    {
        let Tables {
            objects,
            preferences,
            lists,
            ..
        } = self;
        let (types, ranges) = lists.into_lists();
        Numbers {
            predicates: headers.predicates,
            functions: headers.functions,
            objects: objects.into_names(),
            preferences: preferences.names,
            types,
            ranges,
        }
    }

    /// What the numbers stand for.
    pub(crate) fn into_numbers(self, alloc: Global) -> Result<Numbers, NoMemory>
        ensures { IfOk result (λ numbers. numbers ≡ numbers_of self.entry) }
    {
        let headers = copied_headers_of(alloc, self.task)?;
        Ok(self.with_headers(headers))
    }
}
