//! The names that a task declares: copies of them, and tables.

ghost use Rattle.std.specs.Prelude.{◌≡◌, ◌++◌, ◌∷◌, [], if◌then◌else◌, map, OnOk, IfOk};
ghost use Rattle.p3_task.specs.Names.{has_name};
ghost use Rattle.p3_task.specs.PreferenceNames.{in_text_order, named_in_domain, named_in_problem, ordered_names};
ghost use Rattle.p3_task.specs.Types.{once_each};
ghost use Rattle.p3_numbers.specs.Tasks.{header_names};
ghost use Rattle.p3_resolve.specs.Listed.{lists_in, task_lists};
ghost use Rattle.p3_resolve.specs.Words.{named_in, names_in, name_of};

use crate::gather::{Gathered, Named};
use p3_base::{List, Name, NoMemory};
use p3_numbers::{Names, name_key};
use p3_task::{Header, Ref, Task};
use std::alloc::Global;

/// A copy of a name.
pub(crate) fn copied(alloc: Global, name: &Name) -> Result<Name, NoMemory>
    ensures { IfOk result (λ copy. copy ≡ name.now) }
{
    let copy = Name::of(alloc, name.bytes())?;
    Ok(copy)
}

/// Copies of the names of headers.
pub(crate) fn copied_headers(alloc: Global, headers: &[Header]) -> Result<List<Name>, NoMemory>
    ensures { IfOk result (λ names. names ≡ header_names headers.now) }
{
    let mut names = List::new(alloc);
    for header in headers {
        names.push(copied(alloc, &header.name.name)?)?;
    }
    Ok(names)
}

/// The names by rising offsets, those at one offset as they stood.
fn in_order<'t>(named: Vec<Named<'t>>) -> Result<Vec<Named<'t>>, NoMemory>
    ensures { IfOk result
        (λ sorted. map name_of (named_in sorted.items)
        ≡ in_text_order (named_in named.entry.items)) }
{
    let mut sorted = named;
    sorted.sort_by_key(|one| one.at)?;
    Ok(sorted)
}

/// The names more.
fn push_names<'t>(words: &mut Vec<&'t Name>, named: &[Named<'t>]) -> Result<(), NoMemory>
    ensures { OnOk result
        (names_in words.new.items
        ≡ names_in words.old.items ++ map name_of (named_in named.now)) }
{
    for one in named {
        words.push(one.name)?;
    }
    Ok(())
}

/// Names, each once, found by hashing.
#[derive(Drop)]
pub(crate) struct NameTable {
    /// The names, in order.
    pub(crate) names: List<Name>,
    /// The same names, to be found.
    pub(crate) found: Names,
    ghost same: { found ≡ names },
}

/// A name goes last, if it is new.
fn push_new(
    alloc: Global,
    found: &mut Names,
    names: &mut List<Name>,
    name: &Name,
) -> Result<(), NoMemory>
    requires { found.old ≡ names.old }
    ensures same { OnOk result (found.new ≡ names.new) }
    ensures names { OnOk result
        (names.new
        ≡ (if has_name names.old name.now then names.old else names.old ++ name.now ∷ [])) }
{
    if found.has(name.bytes()) {
        return Ok(());
    }
    found.add(alloc, name)?;
    names.push(copied(alloc, name)?)?;
    Ok(())
}

/// Each of the words once, in the order in which they first stand.
fn table_of(alloc: Global, words: &[&Name]) -> Result<NameTable, NoMemory>
    ensures { IfOk result (λ table. table.names ≡ once_each (names_in words.now)) }
{
    let mut found = Names::new(alloc, name_key(words));
    let mut names = List::new(alloc);
    for word in words {
        push_new(alloc, &mut found, &mut names, word)?;
    }
    Ok(NameTable { names, found })
}

/// The names of preferences of two halves, by rising offsets in each.
fn names_by_offset<'t>(
    alloc: Global,
    domain: Vec<Named<'t>>,
    problem: Vec<Named<'t>>,
) -> Result<NameTable, NoMemory>
    ensures { IfOk result (λ table. table.names ≡ once_each
        (in_text_order (named_in domain.entry.items)
        ++ in_text_order (named_in problem.entry.items))) }
{
    let domain = in_order(domain)?;
    let problem = in_order(problem)?;
    let mut words = Vec::new(alloc);
    push_names(&mut words, &domain)?;
    push_names(&mut words, &problem)?;
    let table = table_of(alloc, &words)?;
    Ok(table)
}

/// What the trees of a task declare.
#[derive(Drop)]
pub(crate) struct DeclaredInTrees<'t> {
    /// The lists of types of variables, in the order of the trees.
    pub(crate) lists: Vec<&'t [Ref]>,
    /// The names of preferences, each once, in the order of the text.
    pub(crate) preferences: NameTable,
}

/// What the trees of a task declare.
#[tactic(auto, using(crate::proofs::ListedLemmas::task_laws), unfolding(p3_task::specs::PreferenceNames::ordered_names))]
pub(crate) fn declared_in_trees<'t>(
    alloc: Global,
    task: &'t Task,
) -> Result<DeclaredInTrees<'t>, NoMemory>
    ensures lists { IfOk result
        (λ declared. lists_in declared.lists.items ≡ task_lists task.now) }
    ensures preferences { IfOk result
        (λ declared. declared.preferences.names ≡ ordered_names task.now) }
{
    let domain = Gathered::of_domain(alloc, &task.domain)?;
    let problem = Gathered::of_problem(alloc, &task.problem)?;
    let mut lists = domain.lists;
    lists.extend_from_slice(&problem.lists)?;
    let preferences = names_by_offset(alloc, domain.named, problem.named)?;
    Ok(DeclaredInTrees { lists, preferences })
}
