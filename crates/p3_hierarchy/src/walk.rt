//! The types of a task in the order of a walk down, from each to those directly below it.

ghost use Rattle.std.specs.Prelude.{List, filter_map, bytes_eq, All, IfOk, OnOk};
ghost use Rattle.std.specs.HashMap.{get};
ghost use Rattle.p3_task.specs.Types.{pair_of};
ghost use Rattle.p3_hierarchy.specs.Kinds.{AreFiled};
ghost use Rattle.p3_hierarchy.specs.Walks.{IsAt, IsWalked, IsNext};
ghost use Rattle.p3_task.specs.Names.{Name};
ghost use Rattle.p3_hierarchy.specs.Nexts.{AreNext};

use crate::words::Words;
use p3_base::{List, NoMemory};
use p3_numbers::Key;
use p3_task::Kind;
use std::alloc::Global;
use std::collections::HashMap;

/// From each type to those that are declared directly below it.
pub(crate) type Lows<'t> = HashMap<&'t [u8], List<&'t [u8]>, Key>;

/// Declared types, and those directly below each.
#[derive(Clone, Copy)]
pub(crate) struct Filed<'f, 't> {
    pub(crate) kinds: &'t [Kind],
    pub(crate) lows: &'f Lows<'t>,
    /// The key of the names of the types.
    pub(crate) key: Key,
    ghost filed: { AreFiled kinds.now (get (λ x y. bytes_eq x.now y.now) lows.now) },
}

/// A type that is to be visited, and the place of the one that led to it.
#[derive(Clone, Copy)]
struct Next<'t> {
    kind: &'t [u8],
    from: usize,
}

/// Types, each once, in the order of a walk down.
#[derive(Drop)]
pub(crate) struct Walk<'t> {
    pub(crate) names: Words<'t>,
    /// For each the place of the type that led to it, or, where none did, no place before it.
    pub(crate) from: Vec<usize>,
}

/// Types are to be visited to which the one at a place led.
fn call<'t>(next: &mut Vec<Next<'t>>, kinds: &[&'t [u8]], from: usize) -> Result<(), NoMemory>
    ensures { OnOk result ((pairs : List (Name × Name)) (names : List Name)
        → All (λ kind. IsNext pairs names kind.now from) kinds.now
        → AreNext pairs names next.old.items → AreNext pairs names next.new.items) }
{
    for kind in kinds {
        next.push(Next { kind, from })?;
    }
    Ok(())
}

/// The types are to be visited that are directly below the one at a place.
fn call_lows<'t>(
    filed: &Filed<'_, 't>,
    next: &mut Vec<Next<'t>>,
    high: &[u8],
    from: usize,
) -> Result<(), NoMemory>
    ensures { OnOk result ((names : List Name)
        → IsAt names from high.now
        → AreNext (filter_map pair_of filed.now.kinds.now) names next.old.items
        → AreNext (filter_map pair_of filed.now.kinds.now) names next.new.items) }
{
    match filed.lows.get(high) {
        None => Ok(()),
        Some(lows) => {
            call(next, lows.items(), from)?;
            Ok(())
        }
    }
}

/// A type is visited, where it was not before.
fn visit<'t>(
    filed: &Filed<'_, 't>,
    walk: &mut Walk<'t>,
    next: &mut Vec<Next<'t>>,
    one: &Next<'t>,
) -> Result<(), NoMemory>
    requires walked { IsWalked (filter_map pair_of filed.now.kinds.now)
        walk.old.names walk.old.from.items }
    requires next { AreNext (filter_map pair_of filed.now.kinds.now)
        walk.old.names next.old.items }
    requires one { IsNext (filter_map pair_of filed.now.kinds.now) walk.old.names
        one.now.kind.now one.now.from }
    ensures walked { OnOk result (IsWalked (filter_map pair_of filed.now.kinds.now)
        walk.new.names walk.new.from.items) }
    ensures next { OnOk result (AreNext (filter_map pair_of filed.now.kinds.now)
        walk.new.names next.new.items) }
{
    if walk.names.has(one.kind) {
        return Ok(());
    }
    let place = walk.names.len();
    walk.names.add(one.kind)?;
    walk.from.push(one.from)?;
    call_lows(filed, next, one.kind, place)?;
    Ok(())
}

/// A walk down from these types, the last of them first. Each declared pair is looked at once.
fn walk_from<'t>(
    alloc: Global,
    filed: &Filed<'_, 't>,
    roots: &[&'t [u8]],
) -> Result<Walk<'t>, NoMemory>
    ensures { IfOk result (λ walk.
        IsWalked (filter_map pair_of filed.now.kinds.now) walk.names walk.from.items) }
{
    let mut walk = Walk {
        names: Words::new(alloc, filed.key),
        from: Vec::new(alloc),
    };
    let mut next = Vec::new(alloc);
    call(&mut next, roots, usize::MAX)?;
    let most = filed.kinds.len().saturating_add(roots.len());
    'visits: for _ in 0..most {
        match next.pop() {
            None => return Ok(walk),
            Some(one) => visit(filed, &mut walk, &mut next, &one)?,
        }
    }
    Ok(walk)
}

/// The types above others.
fn highs<'t>(alloc: Global, kinds: &'t [Kind]) -> Result<Vec<&'t [u8]>, NoMemory> {
    let mut highs = Vec::new(alloc);
    for kind in kinds {
        if let Some(parent) = &kind.parent {
            highs.push(parent.name.bytes())?;
        }
    }
    Ok(highs)
}

/// The types of a walk that no other led to.
fn uppermost<'t>(alloc: Global, walk: &Walk<'t>) -> Result<Vec<&'t [u8]>, NoMemory> {
    let mut found = Vec::new(alloc);
    for (place, from) in walk.from.iter().enumerate() {
        if *from == usize::MAX && place < walk.names.len() {
            found.push(walk.names.at(place))?;
        }
    }
    Ok(found)
}

/// The types above others, and all that are below them, in the order of a walk down. A first walk
/// finds where the second has to begin, so that it comes to a type from those above it.
pub(crate) fn walked<'t>(alloc: Global, filed: &Filed<'_, 't>) -> Result<Walk<'t>, NoMemory>
    ensures { IfOk result (λ walk.
        IsWalked (filter_map pair_of filed.now.kinds.now) walk.names walk.from.items) }
{
    let highs = highs(alloc, filed.kinds)?;
    let first = walk_from(alloc, filed, &highs)?;
    let roots = uppermost(alloc, &first)?;
    walk_from(alloc, filed, &roots)
}
