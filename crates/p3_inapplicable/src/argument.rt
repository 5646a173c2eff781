//! Which argument of a step is none of its action's, and why.

ghost use Rattle.std.specs.Prelude.{◌≡◌, IfOk, length};
ghost use Rattle.p3_task.specs.Names.{has_name, same_name};
ghost use Rattle.p3_numbers.specs.Slots.{name_at, object_names};
ghost use Rattle.p3_inapplicable.specs.Arguments.{fault_at, fault_by, first_other_by};

use p3_accounts::StepFault;
use p3_base::{Name, NoMemory, as_number};
use p3_expansion::objects_of;
use p3_numbers::Numbers;
use p3_task::Typed;
use std::alloc::Global;

/// Tells whether one of the names is this.
fn has_name_in(names: &[Name], name: &Name) -> bool
    ensures { result ≡ has_name names.now name.now }
{
    names.iter().any(|other| other.bytes() == name.bytes())
}

/// Tells whether the object of the number has this name.
fn is_called(numbers: &Numbers, object: u32, name: &Name) -> bool
    ensures { result ≡ same_name (name_at numbers.now.objects object) name.now }
{
    match numbers.objects.get(object as usize) {
        Some(other) => other.bytes() == name.bytes(),
        None => name.bytes().is_empty(),
    }
}

/// Tells whether one of the objects has this name.
fn has_object(numbers: &Numbers, objects: &[u32], name: &Name) -> bool
    ensures { result ≡ has_name (object_names numbers.now objects.now) name.now }
{
    for object in objects {
        if is_called(numbers, *object, name) {
            return true;
        }
    }
    false
}

/// Says why the argument of a number is not its parameter's.
fn fault_of(
    alloc: Global,
    numbers: &Numbers,
    number: u32,
    parameter: &Typed,
    name: &Name,
) -> Result<StepFault, NoMemory>
    ensures { IfOk result (λ fault. fault
        ≡ fault_at (has_name numbers.now.objects name.now) number parameter.now) }
{
    if has_name_in(numbers.objects.items(), name) {
        let parameter = Name::of(alloc, parameter.name.name.bytes())?;
        return Ok(StepFault::NoType {
            argument: number,
            parameter,
        });
    }
    Ok(StepFault::NoObject(number))
}

/// Finds the first argument that is not its parameter's, where there are as many as parameters with
/// these ranges.
fn first_other(
    alloc: Global,
    numbers: &Numbers,
    parameters: &[Typed],
    ranges: &[u32],
    names: &[Name],
) -> Result<Option<StepFault>, NoMemory>
    requires ranges { length ranges.now ≡ length parameters.now }
    requires names { length names.now ≡ length parameters.now }
    ensures { IfOk result (λ fault. fault
        ≡ first_other_by numbers.now 1 parameters.now ranges.now names.now) }
{
    for place in 0..parameters.len() {
        let (parameter, name) = (&parameters[place], &names[place]);
        let objects = objects_of(numbers, ranges[place]);
        if !has_object(numbers, objects, name) {
            let number = as_number(place + 1)?;
            let fault = fault_of(alloc, numbers, number, parameter, name)?;
            return Ok(Some(fault));
        }
    }
    Ok(None)
}

/// Says why arguments are not those of parameters with these ranges, where they are not.
pub(crate) fn argument_fault(
    alloc: Global,
    numbers: &Numbers,
    parameters: &[Typed],
    ranges: &[u32],
    names: &[Name],
) -> Result<Option<StepFault>, NoMemory>
    requires ranges { length ranges.now ≡ length parameters.now }
    ensures { IfOk result (λ fault. fault
        ≡ fault_by numbers.now parameters.now ranges.now names.now) }
{
    if parameters.len() == names.len() {
        return first_other(alloc, numbers, parameters, ranges, names);
    }
    let count = as_number(parameters.len())?;
    Ok(Some(StepFault::Count(count)))
}
