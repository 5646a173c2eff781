//! What fits a list of types.

ghost use Rattle.std.specs.Prelude.{◌≡◌, map, IfOk};
ghost use Rattle.std.specs.List.{list_all, list_any};
ghost use Rattle.p3_task.specs.Types.{declared_objects, type_names, is_below_some};
ghost use Rattle.p3_hierarchy.specs.Objects.{fits};
ghost use Rattle.p3_resolve.specs.ByNumber.{repeated_items};
ghost use Rattle.p3_resolve.specs.Fitting.{HasFitting, found_fits};

use crate::by_number::are_many;
use crate::repeated::Repeated;
use p3_base::{Name, NoMemory};
use p3_hierarchy::{Below, Kinds};
use p3_numbers::Names;
use p3_task::{Ref, Typed};
use std::alloc::Global;

/// Whether one of the declarations fits, as they stand.
fn any_fits(below: &Below, items: &[&Typed]) -> bool
    ensures { result ≡ list_any
        (λ item. fits below.now.task.now below.now.types.now item.now)
        items.now }
{
    items.iter().any(|item| below.has_some(item.types.items()))
}

/// Whether one of the declarations fits.
fn some_fits(below: &Below, items: &[&Typed]) -> bool
    ensures { result ≡ list_any
        (fits below.now.task.now below.now.types.now)
        (map (λ item. item.now) items.now) }
{
    any_fits(below, items)
}

/// What fits a list of types.
#[derive(Drop)]
pub(crate) struct Fit<'t> {
    below: Below<'t>,
    /// The objects that are declared more than a few times, where one of the declarations fits.
    repeated: Names,
    ghost told: { HasFitting below.task.now below.types.now repeated },
}

impl<'t> Fit<'t> {
    /// What fits the list.
    pub(crate) fn of(
        alloc: Global,
        kinds: &Kinds<'t>,
        repeated: &Repeated<'t>,
        types: &'t [Ref],
    ) -> Result<Fit<'t>, NoMemory>
        requires { map (λ entry. entry.declared.now) repeated.now.declarations.entries.items
            ≡ repeated_items (declared_objects kinds.now.task.now) }
        ensures task { IfOk result (λ fit. fit.below.task.now ≡ kinds.now.task.now) }
        ensures types { IfOk result (λ fit. fit.below.types.now ≡ types.now) }
    {
        let below = kinds.below_some(alloc, types)?;
        let repeated = repeated.fitting(alloc, &below)?;
        Ok(Fit { below, repeated })
    }

    /// Whether an object with these declarations fits.
    pub(crate) fn has_object(&self, declared: &[&Typed], name: &Name) -> bool
        ensures { result ≡ found_fits
            self.now.below.task.now
            self.now.below.types.now
            (map (λ item. item.now) declared.now)
            self.now.repeated
            name.now }
    {
        if are_many(declared) {
            return self.repeated.has(name.bytes());
        }
        some_fits(&self.below, declared)
    }

    /// Whether each of a variable's types is below one of the listed ones.
    pub(crate) fn has_variable(&self, variable: &Typed) -> bool
        ensures { result ≡ list_all
            (is_below_some self.now.below.task.now self.now.below.types.now)
            (type_names variable.now.types) }
    {
        self.below.has_each(variable.types.items())
    }
}
