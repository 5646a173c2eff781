//! Types in a row in which those below one of them mostly stand together.

ghost use Rattle.std.specs.Prelude.{◌≡◌, ◌≤◌, ◌<◌, ℕ, List, Some, filter_map, length, slice_get, slice_index_or, IfOk, IfSome};
ghost use Rattle.p3_task.specs.Names.{Name};
ghost use Rattle.p3_task.specs.Types.{pair_of};
ghost use Rattle.p3_hierarchy.specs.Walks.{IsSpan, IsTop, place_of};
ghost use Rattle.p3_hierarchy.specs.Reaches.{AreReached, AreTops};
ghost use Rattle.p3_hierarchy.specs.Spans.{AreSpans};

use crate::reaches::{Reach, reaches_of};
use crate::span::Span;
use crate::walk::{Filed, Walk, walked};
use crate::words::Words;
use p3_base::NoMemory;
use p3_task::Kind;
use std::alloc::Global;

/// The earliest place that is known of a type below the one at the place.
fn top_of(reaches: &[Reach], tops: &[usize], place: usize) -> usize
    requires within { place < length reaches.now }
    requires long { length tops.now ≡ place }
    requires before { (k : ℕ) → k < length tops.now → slice_index_or tops.now k 0 ≤ k }
    ensures before { result ≤ place }
    ensures top { (pairs : List (Name × Name)) (names : List Name)
        → AreReached pairs names 0 reaches.now → AreTops pairs names tops.now
        → IsTop pairs names place result }
{
    let least = reaches[place].least;
    if least < place { tops[least] } else { place }
}

/// The places of all types below the one at the place, where they stand together and are many.
fn span_of(reaches: &[Reach], top: usize, place: usize) -> Option<Span>
    requires { top < length reaches.now }
    ensures { (pairs : List (Name × Name)) (names : List Name)
        → AreReached pairs names 0 reaches.now → IsTop pairs names place top
        → IfSome result (λ span. IsSpan pairs names place span.first span.end) }
{
    let reach = reaches[top];
    if place < reach.end && top <= reach.least && reach.most < reach.end && top + 1 < reach.end {
        return Some(Span {
            first: top,
            end: reach.end,
        });
    }
    None
}

/// For each type the places of all types below it, where they stand together and are many.
fn spans_of(alloc: Global, reaches: &[Reach]) -> Result<Vec<Option<Span>>, NoMemory>
    ensures { (pairs : List (Name × Name)) (names : List Name)
        → AreReached pairs names 0 reaches.now
        → IfOk result (λ spans. AreSpans pairs names spans.items) }
{
    let mut tops = Vec::new(alloc);
    let mut spans = Vec::new(alloc);
    for place in 0..reaches.len() {
        let top = top_of(reaches, &tops, place);
        tops.push(top)?;
        spans.push(span_of(reaches, top, place))?;
    }
    Ok(spans)
}

/// Declared types in a row, and where all types below one of them stand.
#[derive(Drop)]
pub(crate) struct Order<'t> {
    kinds: &'t [Kind],
    names: Words<'t>,
    spans: Vec<Option<Span>>,
    ghost spanned: { ∥ AreSpans (filter_map pair_of kinds.now) names spans.items ∥₁ },
}

impl<'t> Order<'t> {
    /// The types in the order of a walk down.
    pub(crate) fn of(alloc: Global, filed: &Filed<'_, 't>) -> Result<Order<'t>, NoMemory>
        ensures { IfOk result (λ order. order.kinds.now ≡ filed.now.kinds.now) }
    {
        let walk = walked(alloc, filed)?;
        let reaches = reaches_of(alloc, filed, &walk)?;
        let spans = spans_of(alloc, &reaches)?;
        let Walk { names, from: _ } = walk;
        Ok(Order {
            kinds: filed.kinds,
            names,
            spans,
        })
    }

    /// The place of a type, which is their number where it has none.
    pub(crate) fn place(&self, kind: &[u8]) -> usize
        ensures { result ≡ place_of self.now.names kind.now }
    {
        self.names.place(kind)
    }

    /// The places of all types below one, where they stand together and are many.
    pub(crate) fn span_at(&self, kind: &[u8]) -> Option<Span>
        ensures { IfSome result (λ span. slice_get self.now.spans.items
            (place_of self.now.names kind.now) ≡ Some (Some span)) }
    {
        match self.spans.get(self.names.place(kind)) {
            None => None,
            Some(span) => *span,
        }
    }
}
