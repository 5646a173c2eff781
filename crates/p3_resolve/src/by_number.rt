//! The declarations of objects, by the numbers of the objects.

ghost use Rattle.std.specs.Prelude.{◌≡◌, ◌<◌, ◌++◌, ◌∷◌, [], length, map, replicate, slice_index_or, slice_set, IfOk, OnOk};
ghost use Rattle.p3_task.specs.Types.{declared_objects};
ghost use Rattle.p3_task.specs.Names.{Name as Word};
ghost use Rattle.p3_hierarchy.specs.Objects.{name_of, object_names};
ghost use Rattle.p3_numbers.specs.Places.{number_in};
ghost use Rattle.p3_resolve.specs.ByNumber.{AreFiled, declared_as, repeated_in, repeated_items};
ghost use Rattle.p3_resolve.specs.ByNumber as specs;

use p3_base::{List, NoMemory};
use p3_hierarchy::{Declaration, Objects};
use p3_task::{Task, Typed};
use std::alloc::Global;

/// For each object its declarations.
type Table<'t> = Vec<List<&'t Typed>>;

/// How many declarations of an object are looked through each time that it is asked for.
const FEW: usize = 16;

/// Whether there are more than a few declarations.
pub(crate) fn are_many(items: &[&Typed]) -> bool
    ensures { result ≡ specs.are_many items.now }
{
    items.len() > FEW
}

/// So many objects, each without a declaration.
fn undeclared<'t>(alloc: Global, count: usize) -> Result<Table<'t>, NoMemory>
    ensures { IfOk result (λ table. table.items ≡ replicate count []) }
{
    let mut table = Vec::new(alloc);
    for place in 0..count {
        table.push(List::new(alloc))?;
    }
    Ok(table)
}

/// A declaration goes last among those of the object with the number.
fn file<'t>(table: &mut Table<'t>, number: usize, item: &'t Typed) -> Result<(), NoMemory>
    requires { number < length table.old.items }
    ensures { OnOk result (table.new.items ≡ slice_set table.old.items number
        (slice_index_or table.old.items number [] ++ item.entry ∷ [])) }
{
    table[number].push(item)?;
    Ok(())
}

/// The declarations of objects, by number.
fn filed<'t>(alloc: Global, objects: &Objects<'t>) -> Result<Table<'t>, NoMemory>
    ensures { IfOk result (λ table. AreFiled
        (object_names objects.now.task.now) (declared_objects objects.now.task.now) table.items) }
{
    let mut table = undeclared(alloc, objects.names().len())?;
    for one in objects.declarations() {
        file(&mut table, one.number, one.declared)?;
    }
    Ok(table)
}

/// The declarations at a number; where nothing has it, there are none.
fn items_at<'a, 't>(table: &'a [List<&'t Typed>], number: usize) -> &'a [&'t Typed]
    ensures { result.now ≡ slice_index_or table.now number [] }
{
    if number < table.len() {
        return table[number].items();
    }
    &[]
}

/// The declarations of a task's objects, by number.
#[derive(Drop)]
pub(crate) struct ByNumber<'t> {
    pub(crate) task: &'t Task,
    table: Table<'t>,
    ghost filed: { AreFiled (object_names task.now) (declared_objects task.now) table.items },
}

impl<'t> ByNumber<'t> {
    /// Those of a task.
    pub(crate) fn of(
        alloc: Global,
        task: &'t Task,
        objects: &Objects<'t>,
    ) -> Result<ByNumber<'t>, NoMemory>
        requires { objects.now.task.now ≡ task.now }
        ensures { IfOk result (λ declared. declared.task.now ≡ task.now) }
    {
        let table = filed(alloc, objects)?;
        Ok(ByNumber { task, table })
    }

    /// The declarations of the object with the number, in their order.
    pub(crate) fn of_object(&self, number: usize) -> &[&'t Typed]
        ensures { (name : Word) → number ≡ number_in (object_names self.now.task.now) name
            → map (λ item. item.now) result.now
            ≡ declared_as name (declared_objects self.now.task.now) }
    {
        items_at(&self.table, number)
    }

    /// A declaration goes last where its object is declared more than a few times.
    fn keep(&self, repeated: &mut Vec<&'t Typed>, one: &Declaration<'t>) -> Result<(), NoMemory>
        requires { one.now.number
            ≡ number_in (object_names self.now.task.now) (name_of one.now.declared.now) }
        ensures { OnOk result (map (λ item. item.now) repeated.new.items
            ≡ map (λ item. item.now) repeated.old.items
            ++ repeated_in (declared_objects self.now.task.now) (one.now.declared.now ∷ [])) }
    {
        if are_many(self.of_object(one.number)) {
            repeated.push(one.declared)?;
        }
        Ok(())
    }

    /// The declarations of objects that are declared more than a few times.
    pub(crate) fn repeated(
        &self,
        alloc: Global,
        objects: &Objects<'t>,
    ) -> Result<Vec<&'t Typed>, NoMemory>
        requires { objects.now.task.now ≡ self.now.task.now }
        ensures { IfOk result (λ repeated. map (λ item. item.now) repeated.items
            ≡ repeated_items (declared_objects self.now.task.now)) }
    {
        let mut repeated = Vec::new(alloc);
        for one in objects.declarations() {
            self.keep(&mut repeated, one)?;
        }
        Ok(repeated)
    }
}
