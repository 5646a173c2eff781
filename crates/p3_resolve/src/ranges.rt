//! The lists of types of a task, each once, with the objects of each.

ghost use Rattle.std.specs.Prelude.{◌≡◌, OnOk, IfOk};
ghost use Rattle.std.specs.List.{position_or_len};
ghost use Rattle.p3_resolve.specs.Listed.{lists_in, task_lists};
ghost use Rattle.p3_resolve.specs.Numbers.{names_in};
ghost use Rattle.p3_resolve.specs.Ranges.{IsRange, HaveRanges, lists_once};
ghost use Rattle.p3_task.specs.Names.{same_names};
ghost use Rattle.p3_task.specs.Types.{names_of};

use crate::names_of_task::copied;
use crate::numbers::number_of;
use p3_base::{List, Name, NoMemory, as_number};
use p3_hierarchy::{Kinds, Objects};
use p3_numbers::{TypeLists, list_key};
use p3_task::Ref;
use std::alloc::Global;

/// Lists of types, each once.
#[derive(Drop)]
struct Lists<'t> {
    /// The lists, to be found.
    table: TypeLists<'t>,
    /// The same lists, in order.
    lists: Vec<&'t [Ref]>,
    ghost same: { table ≡ names_in lists.items },
}

/// The lists, each once, in the order in which they first stand.
fn each_list<'t>(alloc: Global, found: &[&'t [Ref]]) -> Result<Lists<'t>, NoMemory>
    ensures { IfOk result (λ lists. lists.table ≡ lists_once (lists_in found.now)) }
{
    let mut table = TypeLists::new(alloc, list_key(found));
    let mut lists = Vec::new(alloc);
    for types in found {
        number_of(alloc, &mut table, &mut lists, *types)?;
    }
    Ok(Lists { table, lists })
}

/// A copy of the names of types.
fn copied_names(alloc: Global, types: &[Ref]) -> Result<List<Name>, NoMemory>
    ensures { IfOk result (λ names. names ≡ names_of types.now) }
{
    let mut names = List::new(alloc);
    for kind in types {
        names.push(copied(alloc, &kind.name)?)?;
    }
    Ok(names)
}

/// A copy of the names of each list.
fn copied_lists(alloc: Global, lists: &[&[Ref]]) -> Result<List<List<Name>>, NoMemory>
    ensures { IfOk result (λ copies. copies ≡ names_in lists.now) }
{
    let mut copies = List::new(alloc);
    for types in lists {
        copies.push(copied_names(alloc, types)?)?;
    }
    Ok(copies)
}

/// The objects of the types.
fn range<'t>(
    alloc: Global,
    kinds: &Kinds<'t>,
    objects: &Objects<'t>,
    types: &'t [Ref],
) -> Result<List<u32>, NoMemory>
    requires { objects.now.task.now ≡ kinds.now.task.now }
    ensures { IfOk result (IsRange kinds.now.task.now (names_of types.now)) }
{
    let below = kinds.below_some(alloc, types)?;
    let range = below.objects_below(alloc, objects)?;
    Ok(range)
}

/// The objects of each list.
fn ranges_of<'t>(
    alloc: Global,
    kinds: &Kinds<'t>,
    objects: &Objects<'t>,
    lists: &[&'t [Ref]],
) -> Result<List<List<u32>>, NoMemory>
    requires { objects.now.task.now ≡ kinds.now.task.now }
    ensures { IfOk result (HaveRanges kinds.now.task.now (names_in lists.now)) }
{
    let mut ranges = List::new(alloc);
    for types in lists {
        ranges.push(range(alloc, kinds, objects, *types)?)?;
    }
    Ok(ranges)
}

/// Lists of types, each once, and the objects of each.
#[derive(Drop)]
pub(crate) struct Ranges<'t> {
    /// The lists, to be found.
    table: TypeLists<'t>,
    /// The names of the same lists.
    pub(crate) types: List<List<Name>>,
    /// The objects of each.
    pub(crate) ranges: List<List<u32>>,
    ghost same: { table ≡ types },
}

impl<'t> Ranges<'t> {
    /// The lists that were found, and the objects of each.
    pub(crate) fn of(
        alloc: Global,
        kinds: &Kinds<'t>,
        objects: &Objects<'t>,
        found: &[&'t [Ref]],
    ) -> Result<Ranges<'t>, NoMemory>
        requires { objects.now.task.now ≡ kinds.now.task.now }
        ensures types { IfOk result (λ ranges. ranges.types ≡ lists_once (lists_in found.now)) }
        ensures ranges { IfOk result
            (λ ranges. HaveRanges kinds.now.task.now ranges.types ranges.ranges) }
    {
        let Lists { table, lists } = each_list(alloc, found)?;
        let types = copied_lists(alloc, &lists)?;
        let ranges = ranges_of(alloc, kinds, objects, &lists)?;
        Ok(Ranges {
            table,
            types,
            ranges,
        })
    }

    /// The number of a list.
    pub(crate) fn number_of(&self, alloc: Global, types: &'t [Ref]) -> Result<u32, NoMemory>
        ensures { IfOk result (λ number. number
            ≡ position_or_len (λ other. same_names other (names_of types.now)) self.now.types) }
    {
        let place = self.table.find(alloc, types)?;
        Ok(as_number(place)?)
    }

    /// The names of the lists, and the objects of each.
    pub(crate) fn into_lists(self) -> (List<List<Name>>, List<List<u32>>)
        ensures types { result.0 ≡ self.entry.types }
        ensures ranges { result.1 ≡ self.entry.ranges }
    {
        let Ranges { types, ranges, .. } = self;
        (types, ranges)
    }
}
