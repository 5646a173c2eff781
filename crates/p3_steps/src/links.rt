//! The objects that the facts of a static atom have for the newest variable, filed by the word at
//! another place, so that few of a range's objects need a test.

ghost use Rattle.std.specs.Prelude.{◌≡◌, ℕ, List, [], All, length, replicate, slice_get, Some, IfOk, IfSome, OnOk};
ghost use Rattle.std.specs.List.{list_all};
ghost use Rattle.p3_steps.specs.Candidates.{RulesOut};
ghost use Rattle.p3_steps.specs.Links.{
  AreFiled,
  Files,
  IsKeyPlace,
  IsNewestPlace,
  Tells,
  TellsOf,
  TellsOfAtom,
  is_newest as newest,
  is_older as older,
  is_ready as ready,
};

use crate::conjuncts::Test;
use p3_base::{List, NoMemory};
use p3_expansion::{Atoms, object_at, spell};
use p3_numbers::{NumberedArgument, NumberedCondition};
use std::alloc::Global;

/// The objects that facts of an atom have for the newest variable.
#[derive(Drop)]
pub(crate) struct Links<'t> {
    predicate: u32,
    args: &'t [NumberedArgument],
    /// The place of the word by which the objects are filed; that of the predicate is 0.
    key: usize,
    /// The objects, by the number that this word is.
    files: Vec<List<u32>>,
}

/// Whether the argument is the variable behind the first so many.
fn is_newest(count: usize, arg: NumberedArgument) -> bool
    ensures { result ≡ newest count arg }
{
    match arg {
        NumberedArgument::Slot(place) => place as usize == count,
        NumberedArgument::Object(_) => false,
    }
}

/// Whether the argument is one of the first so many variables.
fn is_older(count: usize, arg: NumberedArgument) -> bool
    ensures { result ≡ older count arg }
{
    match arg {
        NumberedArgument::Slot(place) => (place as usize) < count,
        NumberedArgument::Object(_) => false,
    }
}

/// Whether the argument is no variable behind the first so many and the next one.
fn is_ready(count: usize, arg: NumberedArgument) -> bool
    ensures { result ≡ ready count arg }
{
    match arg {
        NumberedArgument::Slot(place) => place as usize <= count,
        NumberedArgument::Object(_) => true,
    }
}

/// Whether no argument is such a variable.
fn are_ready(count: usize, args: &[NumberedArgument]) -> bool
    ensures { result ≡ list_all (ready count) args.now }
{
    args.iter().all(|arg| is_ready(count, *arg))
}

/// Where an atom has the object of the variable behind the first so many.
fn newest_place(count: usize, args: &[NumberedArgument]) -> Option<usize>
    ensures { IfSome result (IsNewestPlace count args.now) }
{
    for place in 0..args.len() {
        if is_newest(count, args[place]) {
            return Some(place + 1);
        }
    }
    None
}

/// Where an atom has the object of one of the first so many variables, or else its predicate.
fn key_place(count: usize, args: &[NumberedArgument]) -> usize
    ensures { IsKeyPlace count args.now result }
{
    for place in 0..args.len() {
        if is_older(count, args[place]) {
            return place + 1;
        }
    }
    0
}

/// Files the word of a fact at the place by that at the key's, if the fact is of the predicate and
/// there is such a file.
fn file(
    files: &mut Vec<List<u32>>,
    predicate: u32,
    key: usize,
    place: usize,
    fact: &[u32],
) -> Result<(), NoMemory>
    ensures { OnOk result
        (Files predicate key place fact.now files.old.items files.new.items) }
{
    if object_at(fact, 0) != predicate {
        return Ok(());
    }
    let number = object_at(fact, key) as usize;
    if number >= files.len() {
        return Ok(());
    }
    files[number].push(object_at(fact, place))?;
    Ok(())
}

/// Files the word of the fact of that number.
fn file_numbered(
    files: &mut Vec<List<u32>>,
    predicate: u32,
    key: usize,
    place: usize,
    facts: &Atoms,
    number: usize,
) -> Result<(), NoMemory>
    ensures { OnOk result ((fact : List ℕ) → slice_get facts.now number ≡ Some fact
        → Files predicate key place fact files.old.items files.new.items) }
{
    match facts.get(number) {
        Some(fact) => file(files, predicate, key, place, fact),
        None => Ok(()),
    }
}

/// So many empty files.
fn empty_files(alloc: Global, count: usize) -> Result<Vec<List<u32>>, NoMemory>
    ensures { IfOk result (λ files. files.items ≡ replicate count []) }
{
    let mut files = Vec::new(alloc);
    for place in 0..count {
        files.push(List::new(alloc))?;
    }
    Ok(files)
}

/// The words of all facts of the predicate at the place, filed by those at the key's.
fn filed(
    alloc: Global,
    facts: &Atoms,
    predicate: u32,
    key: usize,
    place: usize,
    count: usize,
) -> Result<Vec<List<u32>>, NoMemory>
    ensures { IfOk result (λ files. AreFiled predicate key place facts.now files.items) }
{
    let mut files = empty_files(alloc, count)?;
    for number in 0..facts.len() {
        file_numbered(&mut files, predicate, key, place, facts, number)?;
    }
    Ok(files)
}

/// What the facts tell of the variable behind the first so many, where it is an argument of the
/// atom, and no later variable is.
fn links_of_atom<'t>(
    alloc: Global,
    test: &Test<'t>,
    predicate: u32,
    args: &'t [NumberedArgument],
    count: usize,
) -> Result<Option<Links<'t>>, NoMemory>
    ensures { IfOk result (λ links. IfSome links
        (TellsOfAtom test.now.numbers.now test.now.statics.now count predicate args.now)) }
{
    if !are_ready(count, args) {
        return Ok(None);
    }
    let Some(place) = newest_place(count, args) else {
        return Ok(None);
    };
    let key = key_place(count, args);
    let size = test.numbers.objects.len();
    let files = filed(alloc, &test.statics.facts, predicate, key, place, size)?;
    Ok(Some(Links {
        predicate,
        args,
        key,
        files,
    }))
}

/// What the facts tell of the variable behind the first so many, by a condition.
fn links_of<'t>(
    alloc: Global,
    test: &Test<'t>,
    condition: &'t NumberedCondition,
    count: usize,
) -> Result<Option<Links<'t>>, NoMemory>
    ensures { IfOk result (λ links. IfSome links
        (TellsOf test.now.numbers.now test.now.statics.now count condition.now)) }
{
    match condition {
        NumberedCondition::Atom { predicate, args } => {
            let links = links_of_atom(alloc, test, *predicate, args.items(), count)?;
            Ok(links)
        }
        _ => Ok(None),
    }
}

/// What the facts tell of the variable behind the first so many, by each of the conditions that
/// `and` alone joins in a precondition.
pub(crate) fn all_links<'t>(
    alloc: Global,
    test: &Test<'t>,
    count: usize,
) -> Result<Vec<Links<'t>>, NoMemory>
    ensures { IfOk result (λ links. All
        (Tells test.now.numbers.now test.now.statics.now test.now.goal.now count) links.items) }
{
    let mut all = Vec::new(alloc);
    for condition in test.conjuncts.as_slice() {
        if let Some(links) = links_of(alloc, test, condition, count)? {
            all.push(links)?;
        }
    }
    Ok(all)
}

impl<'t> Links<'t> {
    /// The objects that may come behind those in the slots, if the facts tell of them.
    fn row(
        &self,
        test: &Test,
        words: &mut Vec<u32>,
        slots: &[u32],
    ) -> Result<Option<&[u32]>, NoMemory>
        requires { Tells test.now.numbers.now test.now.statics.now test.now.goal.now
            (length slots.now) self.now }
        ensures { IfOk result (λ row. IfSome row (λ objects. RulesOut
            test.now.numbers.now test.now.statics.now test.now.goal.now slots.now objects.now)) }
    {
        spell(words, slots, self.predicate, self.args)?;
        if !test.statics.is_decided(test.numbers, words.as_slice()) {
            return Ok(None);
        }
        let number = object_at(words.as_slice(), self.key) as usize;
        if number >= self.files.len() {
            return Ok(None);
        }
        Ok(Some(self.files[number].items()))
    }
}

/// Whether the first is a list, and the second is none or a longer one.
fn is_shorter(first: &Option<&[u32]>, second: &Option<&[u32]>) -> bool {
    match (first, second) {
        (Some(first), Some(second)) => first.len() < second.len(),
        (Some(_), None) => true,
        _ => false,
    }
}

/// The fewest objects that may come behind those in the slots, if the facts tell of them.
pub(crate) fn shortest_row<'l>(
    all: &'l [Links],
    test: &Test,
    words: &mut Vec<u32>,
    slots: &[u32],
) -> Result<Option<&'l [u32]>, NoMemory>
    requires { All (Tells test.now.numbers.now test.now.statics.now test.now.goal.now
        (length slots.now)) all.now }
    ensures { IfOk result (λ row. IfSome row (λ objects. RulesOut
        test.now.numbers.now test.now.statics.now test.now.goal.now slots.now objects.now)) }
{
    let mut shortest = None;
    for links in all {
        let row = links.row(test, words, slots)?;
        if is_shorter(&row, &shortest) {
            shortest = row;
        }
    }
    Ok(shortest)
}
