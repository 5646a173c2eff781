//! Places in the texts of a task, and the objects of variables.

use p3_accounts::{Binding, InputFile, Spot};
use p3_base::{List, Name, NoMemory, Role};
use p3_scenes::Bindings;
use p3_unmet::{Sources, bindings_of};
use std::alloc::Global;
use std::test::Fail;

/// The spots of an offset in the text of the domain and in that of the problem.
fn spots(alloc: Global, offset: u32) -> Result<(Spot, Spot), NoMemory> {
    let sources = Sources::of(alloc, b"a\nbc", b"abc\nd")?;
    let domain = sources.spot(Role::Domain, offset);
    let problem = sources.spot(Role::Problem, offset);
    drop(sources);
    Ok((domain, problem))
}

#[test]
fn an_offset_is_found_in_the_text_of_its_half(rt: HostRuntime) -> Result<(), Fail> {
    let (domain, problem) = spots(rt.alloc(), 3)?;
    assert!(&rt; domain.file == InputFile::Domain);
    assert!(&rt; domain.line == 2);
    assert!(&rt; domain.column == 2);
    assert!(&rt; problem.file == InputFile::Problem);
    assert!(&rt; problem.line == 1);
    assert!(&rt; problem.column == 4);
    Ok(())
}

/// Makes two variables, where there are three objects.
fn bindings<'t>(
    alloc: Global,
    first: &'t Name,
    second: &'t Name,
) -> Result<Bindings<'t>, NoMemory> {
    let mut variables = List::new(alloc);
    variables.push(first)?;
    variables.push(second)?;
    let objects = List::from(Vec::from_slice(alloc, &[7, 5, 3])?);
    Ok(Bindings { variables, objects })
}

/// Pairs those variables with their objects.
fn paired(alloc: Global, first: &Name, second: &Name) -> Result<List<Binding>, NoMemory> {
    let bindings = bindings(alloc, first, second)?;
    let pairs = bindings_of(alloc, &bindings);
    drop(bindings);
    pairs
}

/// How many pairs two variables make, and the objects that they mean.
fn objects_of(alloc: Global, first: &Name, second: &Name) -> Result<(usize, u32, u32), NoMemory> {
    let list = paired(alloc, first, second)?;
    let objects = match (list.get(0), list.get(1)) {
        (Some(one), Some(other)) => Ok((list.len(), one.object, other.object)),
        _ => Err(NoMemory),
    };
    drop(list);
    objects
}

/// The objects that two variables mean, where there are three objects.
fn objects(alloc: Global) -> Result<(usize, u32, u32), NoMemory> {
    let first = Name::of(alloc, b"?x")?;
    let second = Name::of(alloc, b"?y")?;
    let objects = objects_of(alloc, &first, &second);
    drop(first);
    drop(second);
    objects
}

#[test]
fn each_variable_means_the_object_at_its_place(rt: HostRuntime) -> Result<(), Fail> {
    let (count, first, second) = objects(rt.alloc())?;
    assert!(&rt; count == 2);
    assert!(&rt; first == 7);
    assert!(&rt; second == 5);
    Ok(())
}
