//! Whether objects and variables fit the parameters of a task's headers.

ghost use Rattle.std.specs.Prelude.{◌≡◌, [], map, All, slice_get, option_map, option_and_then, IfOk};
ghost use Rattle.p3_hierarchy.specs.Objects.{object_names};
ghost use Rattle.p3_numbers.specs.Places.{number_in};
ghost use Rattle.p3_task.specs.Types.{declared_objects, names_of};
ghost use Rattle.p3_resolve.specs.ByNumber.{repeated_items};
ghost use Rattle.p3_resolve.specs.Fitting.{object_fits_at, variable_fits_at};
ghost use Rattle.p3_resolve.specs.Numbers.{headers_of, parameter_at, names_in, AreAllNumbers};
ghost use Rattle.p3_resolve.specs.Numbers as specs;

use crate::by_number::ByNumber;
use crate::fit::Fit;
use crate::numbers::number_headers;
use crate::repeated::Repeated;
use p3_base::{Name, NoMemory};
use p3_hierarchy::{Kinds, Objects};
use p3_numbers::{TypeLists, parameter_key};
use p3_task::{Ref, Task, Typed};
use std::alloc::Global;

/// What fits the parameters of a task's headers. Headers are numbered from 0, those of predicates
/// before those of functions, and so are the parameters of a header.
#[derive(Drop)]
pub(crate) struct Fits<'t> {
    objects: ByNumber<'t>,
    /// What fits each list of types.
    fits: Vec<Fit<'t>>,
    /// For each header and each of its parameters the number of its list.
    numbers: Vec<Vec<usize>>,
    ghost tasks: { ∥ All (λ fit. fit.below.task.now ≡ objects.task.now) fits.items ∥₁ },
    ghost numbered: { AreAllNumbers
        (map (λ fit. names_of fit.below.types.now) fits.items)
        (map (λ one. one.items) numbers.items)
        (headers_of objects.task.now) },
}

/// The declarations of objects that are declared more than a few times.
fn repeated_of<'t>(
    alloc: Global,
    declared: &ByNumber<'t>,
    objects: &Objects<'t>,
) -> Result<Repeated<'t>, NoMemory>
    requires { objects.now.task.now ≡ declared.now.task.now }
    ensures { IfOk result (λ repeated.
        map (λ entry. entry.declared.now) repeated.declarations.entries.items
        ≡ repeated_items (declared_objects declared.now.task.now)) }
{
    let items = declared.repeated(alloc, objects)?;
    let repeated = Repeated::of(alloc, &items)?;
    Ok(repeated)
}

/// What fits each of the lists.
fn fits_of<'t>(
    alloc: Global,
    kinds: &Kinds<'t>,
    repeated: &Repeated<'t>,
    lists: &[&'t [Ref]],
) -> Result<Vec<Fit<'t>>, NoMemory>
    requires { map (λ entry. entry.declared.now) repeated.now.declarations.entries.items
        ≡ repeated_items (declared_objects kinds.now.task.now) }
    ensures tasks { IfOk result
        (λ fits. All (λ fit. fit.below.task.now ≡ kinds.now.task.now) fits.items) }
    ensures types { IfOk result
        (λ fits. map (λ fit. names_of fit.below.types.now) fits.items ≡ names_in lists.now) }
{
    let mut fits = Vec::new(alloc);
    for types in lists {
        let fit = Fit::of(alloc, kinds, repeated, types)?;
        fits.push(fit)?;
    }
    Ok(fits)
}

/// The number at a place.
fn number_at(numbers: &[Vec<usize>], header: usize, parameter: usize) -> Option<usize>
    ensures { result ≡ specs.number_at (map (λ one. one.items) numbers.now) header parameter }
{
    match numbers.get(header) {
        None => None,
        Some(parameters) => parameters.get(parameter).copied(),
    }
}

/// The lists of types of parameters, each once.
#[derive(Drop)]
struct ParameterLists<'t> {
    lists: Vec<&'t [Ref]>,
    /// For each header and each of its parameters the number of its list.
    numbers: Vec<Vec<usize>>,
}

/// The lists of types of the parameters of a task's headers.
fn parameter_lists<'t>(alloc: Global, task: &'t Task) -> Result<ParameterLists<'t>, NoMemory>
    ensures { IfOk result (λ found. AreAllNumbers
        (names_in found.lists.items)
        (map (λ one. one.items) found.numbers.items)
        (headers_of task.now)) }
{
    let mut keys = TypeLists::new(alloc, parameter_key(task));
    let mut lists = Vec::new(alloc);
    let mut numbers = Vec::new(alloc);
    number_headers(
        alloc,
        &mut keys,
        &mut lists,
        &mut numbers,
        task.domain.predicates.items(),
    )?;
    number_headers(
        alloc,
        &mut keys,
        &mut lists,
        &mut numbers,
        task.domain.functions.items(),
    )?;
    Ok(ParameterLists { lists, numbers })
}

impl<'t> Fits<'t> {
    /// What fits the parameters of a task.
    pub(crate) fn of(
        alloc: Global,
        task: &'t Task,
        kinds: &Kinds<'t>,
        objects: &Objects<'t>,
    ) -> Result<Fits<'t>, NoMemory>
        requires kinds { kinds.now.task.now ≡ task.now }
        requires objects { objects.now.task.now ≡ task.now }
        ensures { IfOk result (λ fits. fits.objects.task.now ≡ task.now) }
    {
        let ParameterLists { lists, numbers } = parameter_lists(alloc, task)?;
        let declared = ByNumber::of(alloc, task, objects)?;
        let repeated = repeated_of(alloc, &declared, objects)?;
        let fits = fits_of(alloc, kinds, &repeated, &lists)?;
        Ok(Fits {
            objects: declared,
            fits,
            numbers,
        })
    }

    /// What fits the parameter at a place of a header.
    fn find(&self, header: usize, parameter: usize) -> Option<&Fit<'t>>
        ensures { option_map (λ fit. fit.now) result ≡ option_and_then
            (slice_get self.now.fits.items)
            (specs.number_at (map (λ one. one.items) self.now.numbers.items) header parameter) }
    {
        match number_at(&self.numbers, header, parameter) {
            None => None,
            Some(number) => self.fits.get(number),
        }
    }

    /// Whether the object with the number is of the types of a header's parameter, where it has one
    /// there. It takes no memory, and the time of a few look-ups.
    pub(crate) fn object_fits(
        &self,
        header: usize,
        parameter: usize,
        number: usize,
        object: &Name,
    ) -> bool
        requires { number ≡ number_in (object_names self.now.objects.task.now) object.now }
        ensures { result ≡ object_fits_at
            self.now.objects.task.now
            (parameter_at self.now.objects.task.now header parameter)
            object.now }
    {
        match self.find(header, parameter) {
            None => true,
            Some(fit) => fit.has_object(self.objects.of_object(number), object),
        }
    }

    /// Whether each of a variable's types is below one of those of a header's parameter, where it
    /// has one there.
    pub(crate) fn variable_fits(&self, header: usize, parameter: usize, variable: &Typed) -> bool
        ensures { result ≡ variable_fits_at
            self.now.objects.task.now
            (parameter_at self.now.objects.task.now header parameter)
            variable.now }
    {
        match self.find(header, parameter) {
            None => true,
            Some(fit) => fit.has_variable(variable),
        }
    }
}
