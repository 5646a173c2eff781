//! Declarations, found by the types that they name.

ghost use Rattle.std.specs.Prelude.{◌≡◌, ◌++◌, [], false, bytes_eq, flat_map, length, IfOk, OnOk};
ghost use Rattle.std.specs.HashMap.{get};
ghost use Rattle.p3_task.specs.Names.{object_type};
ghost use Rattle.p3_task.specs.Types.{names_of, type_names};
ghost use Rattle.p3_numbers.specs.Keys.{start_of};
ghost use Rattle.p3_hierarchy.specs.Typings.{AreFitting, AreNumbered, FilesNumber, FilesNumbers, number_where_fit, numbers_under, typed, typings_of};

use crate::Below;
use p3_base::{List, NoMemory};
use p3_numbers::{Digest, Key};
use p3_task::{Ref, Typed};
use std::alloc::Global;
use std::collections::HashMap;

/// A declaration of an object.
#[derive(Clone, Copy)]
pub struct Declaration<'t> {
    /// The object with its types.
    pub declared: &'t Typed,
    /// Its number, which others may have too.
    pub number: usize,
}

/// From each type to the numbers of the declarations that name it.
type Table<'t> = HashMap<&'t [u8], List<usize>, Key>;

/// The key of the types that declarations name.
fn declaration_key(entries: &[Declaration]) -> Key
    ensures { result.start
        ≡ start_of (flat_map (λ entry. names_of entry.declared.now.types) entries.now) }
{
    let mut digest = Digest::new();
    for entry in entries {
        digest.tell_types(entry.declared.types.items());
    }
    digest.key()
}

/// A number stands with a type.
fn file<'t>(
    alloc: Global,
    table: &mut Table<'t>,
    kind: &'t [u8],
    number: usize,
) -> Result<(), NoMemory>
    ensures { OnOk result (FilesNumber kind.now number
        (get (λ x y. bytes_eq x.now y.now) table.old)
        (get (λ x y. bytes_eq x.now y.now) table.new)) }
{
    match table.get_mut(kind) {
        Some(found) => {
            found.push(number)?;
            Ok(())
        }
        None => {
            let mut fresh = List::new(alloc);
            fresh.push(number)?;
            table.insert(kind, fresh)?;
            Ok(())
        }
    }
}

/// A number stands with each of the types, as they stand.
fn file_listed<'t>(
    alloc: Global,
    table: &mut Table<'t>,
    types: &'t [Ref],
    number: usize,
) -> Result<(), NoMemory>
    ensures { OnOk result (FilesNumbers (typed number (names_of types.now))
        (get (λ x y. bytes_eq x.now y.now) table.old)
        (get (λ x y. bytes_eq x.now y.now) table.new)) }
{
    for kind in types {
        file(alloc, table, kind.name.bytes(), number)?;
    }
    Ok(())
}

/// A number stands with each of the types; no type stands for `object`.
#[tactic(auto, using(crate::proofs::TypingLemmas::type_laws))]
fn file_types<'t>(
    alloc: Global,
    table: &mut Table<'t>,
    types: &'t [Ref],
    number: usize,
) -> Result<(), NoMemory>
    ensures { OnOk result (FilesNumbers (typed number (type_names types.now))
        (get (λ x y. bytes_eq x.now y.now) table.old)
        (get (λ x y. bytes_eq x.now y.now) table.new)) }
{
    if types.len() == 0 {
        file(alloc, table, b"object", number)?;
        return Ok(());
    }
    file_listed(alloc, table, types, number)?;
    Ok(())
}

/// The numbers of declarations, by their types.
fn filed<'t>(alloc: Global, entries: &[Declaration<'t>]) -> Result<Table<'t>, NoMemory>
    ensures { IfOk result (λ table. AreNumbered (typings_of entries.now)
        (get (λ x y. bytes_eq x.now y.now) table)) }
{
    let mut table = HashMap::with_hasher(alloc, declaration_key(entries));
    for entry in entries {
        file_types(
            alloc,
            &mut table,
            entry.declared.types.items(),
            entry.number,
        )?;
    }
    Ok(table)
}

/// Declarations, found by the types that they name.
#[derive(Drop)]
pub struct Declarations<'t> {
    entries: Vec<Declaration<'t>>,
    table: Table<'t>,
    ghost filed: { AreNumbered (typings_of entries.items)
        (get (λ x y. bytes_eq x.now y.now) table) },
}

impl<'t> Declarations<'t> {
    /// These declarations.
    pub fn of(alloc: Global, entries: Vec<Declaration<'t>>) -> Result<Declarations<'t>, NoMemory>
        ensures { IfOk result (λ declarations. declarations.entries.items ≡ entries.entry.items) }
    {
        let table = filed(alloc, &entries)?;
        Ok(Declarations { entries, table })
    }

    /// All of them.
    pub fn items(&self) -> &[Declaration<'t>]
        ensures { result.now ≡ self.now.entries.items }
    {
        &self.entries
    }

    /// The numbers go last that stand with the type.
    fn push_numbers(&self, numbers: &mut Vec<usize>, kind: &[u8]) -> Result<(), NoMemory>
        ensures { OnOk result (numbers.new.items
            ≡ numbers.old.items ++ numbers_under (typings_of self.now.entries.items) kind.now) }
    {
        match self.table.get(kind) {
            None => Ok(()),
            Some(found) => {
                numbers.extend_from_slice(found.items())?;
                Ok(())
            }
        }
    }
}

impl<'t> Below<'t> {
    /// Whether each type below a listed one was found by itself.
    pub(crate) fn stand_apart(&self) -> bool {
        !self.all && self.spans.len() == 0
    }

    /// The numbers of the declarations that fit, in any order, and each perhaps more than once.
    /// Where the types below the listed ones were found one by one, no other declaration is looked
    /// at.
    pub fn numbers(
        &self,
        alloc: Global,
        declarations: &Declarations<'t>,
    ) -> Result<Vec<usize>, NoMemory>
        ensures { IfOk result (λ numbers. AreFitting self.now.task.now self.now.types.now
            declarations.now.entries.items numbers.items) }
    {
        if !self.all && self.spans.len() == 0 {
            return self.numbers_found(alloc, declarations);
        }
        self.numbers_passing(alloc, declarations.items())
    }

    /// The numbers that stand with the types found.
    fn numbers_found(
        &self,
        alloc: Global,
        declarations: &Declarations<'t>,
    ) -> Result<Vec<usize>, NoMemory>
        requires all { self.now.all ≡ false }
        requires spans { length self.now.spans.items ≡ 0 }
        ensures { IfOk result (λ numbers. AreFitting self.now.task.now self.now.types.now
            declarations.now.entries.items numbers.items) }
    {
        let mut numbers = Vec::new(alloc);
        for place in 0..self.found.len() {
            declarations.push_numbers(&mut numbers, self.found.at(place))?;
        }
        Ok(numbers)
    }

    /// The number of the declaration goes last where it fits.
    fn push_fitting(
        &self,
        numbers: &mut Vec<usize>,
        entry: &Declaration<'t>,
    ) -> Result<(), NoMemory>
        ensures { OnOk result (numbers.new.items ≡ numbers.old.items
            ++ number_where_fit self.now.task.now self.now.types.now entry.now) }
    {
        if self.has_some(entry.declared.types.items()) {
            numbers.push(entry.number)?;
        }
        Ok(())
    }

    /// The numbers of the declarations that fit, each of which is asked.
    fn numbers_passing(
        &self,
        alloc: Global,
        entries: &[Declaration<'t>],
    ) -> Result<Vec<usize>, NoMemory>
        ensures { IfOk result (λ numbers. AreFitting self.now.task.now self.now.types.now
            entries.now numbers.items) }
    {
        let mut numbers = Vec::new(alloc);
        for entry in entries {
            self.push_fitting(&mut numbers, entry)?;
        }
        Ok(numbers)
    }
}
