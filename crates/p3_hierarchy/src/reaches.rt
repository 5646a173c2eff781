//! What a walk down reached from each type.

ghost use Rattle.std.specs.Prelude.{◌≡◌, ◌<◌, ◌≤◌, ◌+◌, ◌^◌, List, [], true, map, filter_map, length, slice_index_or, All, Contains, IfOk};
ghost use Rattle.p3_task.specs.Names.{Name};
ghost use Rattle.p3_task.specs.Types.{pair_of};
ghost use Rattle.p3_hierarchy.specs.Kinds.{lows_under};
ghost use Rattle.p3_hierarchy.specs.Walks.{IsGreater, IsLesser, IsOwn, IsReached, IsWalked, kind_at};
ghost use Rattle.p3_hierarchy.specs.Reaches.{AreReached};

use crate::walk::{Filed, Walk};
use crate::words::Words;
use p3_base::NoMemory;
use std::alloc::Global;

/// What a walk reached from a type, without a gap from its own place.
#[derive(Clone, Copy)]
pub(crate) struct Reach {
    /// The place behind what it reached.
    pub(crate) end: usize,
    /// The first place of all types directly below what it reached, or one before its own.
    pub(crate) least: usize,
    /// The last place of all types directly below what it reached, or one behind those.
    pub(crate) most: usize,
}

/// The lesser of two numbers.
fn lesser(first: usize, second: usize) -> usize
    ensures { IsLesser first second result }
{
    if second < first { second } else { first }
}

/// The greater of two numbers.
fn greater(first: usize, second: usize) -> usize
    ensures { IsGreater first second result }
{
    if first < second { second } else { first }
}

/// What is reached by one type more directly below it.
fn with_place(reach: Reach, place: usize) -> Reach
    ensures end { result.end ≡ reach.end }
    ensures least { IsLesser reach.least place result.least }
    ensures most { IsGreater reach.most place result.most }
{
    Reach {
        end: reach.end,
        least: lesser(reach.least, place),
        most: greater(reach.most, place),
    }
}

/// What is reached first and what is reached next.
fn joined(first: Reach, next: Reach) -> Reach
    ensures end { result.end ≡ next.end }
    ensures least { IsLesser first.least next.least result.least }
    ensures most { IsGreater first.most next.most result.most }
{
    Reach {
        end: next.end,
        least: lesser(first.least, next.least),
        most: greater(first.most, next.most),
    }
}

/// What is reached by these types more directly below the one at the place.
fn with_lows(reach: Reach, names: &Words, place: usize, lows: &[&[u8]]) -> Reach
    ensures end { result.end ≡ reach.end }
    ensures own { (pairs : List (Name × Name)) → place < length names.now
        → All (λ low. Contains pairs (low.now, kind_at names.now place)) lows.now
        → IsOwn pairs names.now place [] reach.least reach.most
        → IsOwn pairs names.now place (map (λ low. low.now) lows.now) result.least result.most }
{
    let mut reach = reach;
    for low in lows {
        reach = with_place(reach, names.place(low));
    }
    reach
}

/// A type itself, with all types directly below it.
fn own_reach(filed: &Filed, names: &Words, place: usize) -> Reach
    requires within { place < length names.now }
    requires small { length names.now < 2 ^ 64 }
    ensures end { result.end ≡ place + 1 }
    ensures own { IsOwn (filter_map pair_of filed.now.kinds.now) names.now place
        (lows_under (filter_map pair_of filed.now.kinds.now) (kind_at names.now place))
        result.least result.most }
{
    let reach = Reach {
        end: place + 1,
        least: place,
        most: place,
    };
    match filed.lows.get(names.at(place)) {
        None => reach,
        Some(lows) => with_lows(reach, names, place, lows.items()),
    }
}

/// Whether a type that was reached from the one at the place led to the type at the end.
fn goes_on(from: &[usize], place: usize, end: usize) -> bool
    ensures { result ≡ true → (end < length from.now)
        × (place ≤ slice_index_or from.now end 0)
        × (slice_index_or from.now end 0 < end) }
{
    end < from.len() && place <= from[end] && from[end] < end
}

/// All that was reached from the type at the place; what was reached from later ones is known.
fn reach_of(filed: &Filed, walk: &Walk, reaches: &[Reach], place: usize) -> Reach
    requires walked { IsWalked (filter_map pair_of filed.now.kinds.now)
        walk.now.names walk.now.from.items }
    requires known { AreReached (filter_map pair_of filed.now.kinds.now) walk.now.names
        (place + 1) reaches.now }
    requires within { place < length walk.now.names }
    requires small { length walk.now.names < 2 ^ 64 }
    ensures { IsReached (filter_map pair_of filed.now.kinds.now) walk.now.names
        place result.end result.least result.most }
{
    let mut reach = own_reach(filed, &walk.names, place);
    while goes_on(&walk.from, place, reach.end) {
        reach = joined(reach, reaches[reach.end]);
    }
    reach
}

/// What a walk reached from each of its types.
pub(crate) fn reaches_of(alloc: Global, filed: &Filed, walk: &Walk) -> Result<Vec<Reach>, NoMemory>
    requires { IsWalked (filter_map pair_of filed.now.kinds.now)
        walk.now.names walk.now.from.items }
    ensures { IfOk result (λ reaches. AreReached (filter_map pair_of filed.now.kinds.now)
        walk.now.names 0 reaches.items) }
{
    let nothing = Reach {
        end: 0,
        least: 0,
        most: 0,
    };
    let mut reaches = vec![in alloc; nothing; walk.names.len()]?;
    let mut place = walk.names.len();
    while place > 0 {
        place -= 1;
        reaches[place] = reach_of(filed, walk, &reaches, place);
    }
    Ok(reaches)
}
