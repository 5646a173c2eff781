//! The types that a task declares, and which of them are below others.

ghost use Rattle.std.specs.Prelude.{◌≡◌, ◌<◌, ◌||◌, [], true, bytes_eq, length, slice_index_or, IfOk, OnOk};
ghost use Rattle.std.specs.HashMap.{get};
ghost use Rattle.std.specs.List.{list_any, list_all};
ghost use Rattle.p3_task.specs.Names.{same_name, has_name, object_type};
ghost use Rattle.p3_task.specs.Types.{declared_pairs, names_of, type_names, is_below_some};
ghost use Rattle.p3_numbers.specs.Names.{with_names};
ghost use Rattle.p3_hierarchy.specs.Kinds.{AreFiled, Files, FilesKind, IsBelowTest, lows_under};
ghost use Rattle.p3_hierarchy.specs.Spans.{AreSpans, IsDownFrom, IsFollowed, is_found, is_in};
ghost use Rattle.p3_hierarchy.specs.Walks.{place_of};

use crate::order::Order;
use crate::span::{Span, is_spanned};
use crate::walk::{Filed, Lows};
use crate::words::Words;
use p3_base::{List, Name, NoMemory};
use p3_numbers::{Digest, Key, kind_digest};
use p3_task::{Kind, Ref, Task};
use std::alloc::Global;
use std::collections::HashMap;
use std::rc::Rc;

/// A type is declared directly below another.
fn file<'t>(
    alloc: Global,
    lows: &mut Lows<'t>,
    low: &'t [u8],
    high: &'t [u8],
) -> Result<(), NoMemory>
    ensures { OnOk result (Files low.now high.now
        (get (λ x y. bytes_eq x.now y.now) lows.old)
        (get (λ x y. bytes_eq x.now y.now) lows.new)) }
{
    match lows.get_mut(high) {
        Some(found) => {
            found.push(low)?;
            Ok(())
        }
        None => {
            let mut fresh = List::new(alloc);
            fresh.push(low)?;
            lows.insert(high, fresh)?;
            Ok(())
        }
    }
}

/// A type goes below its parent, where it has one.
fn file_kind<'t>(alloc: Global, lows: &mut Lows<'t>, kind: &'t Kind) -> Result<(), NoMemory>
    ensures { OnOk result (FilesKind kind.now
        (get (λ x y. bytes_eq x.now y.now) lows.old)
        (get (λ x y. bytes_eq x.now y.now) lows.new)) }
{
    match &kind.parent {
        None => Ok(()),
        Some(parent) => file(alloc, lows, kind.name.name.bytes(), parent.name.bytes()),
    }
}

/// All of them go below their parents.
fn filed<'t>(alloc: Global, kinds: &'t [Kind], key: Key) -> Result<Lows<'t>, NoMemory>
    ensures { IfOk result
        (λ lows. AreFiled kinds.now (get (λ x y. bytes_eq x.now y.now) lows)) }
{
    let mut lows = HashMap::with_hasher(alloc, key);
    for kind in kinds {
        file_kind(alloc, &mut lows, kind)?;
    }
    Ok(lows)
}

/// How many spans of types a search takes.
const MOST_SPANS: usize = 16;

/// The types that a task declares, each with those directly below it.
#[derive(Drop)]
pub struct Kinds<'t> {
    task: &'t Task,
    lows: Lows<'t>,
    digest: Digest,
    order: Rc<Order<'t>>,
    ghost filed: { AreFiled task.now.domain.kinds (get (λ x y. bytes_eq x.now y.now) lows) },
    ghost ordered: { order.value.kinds.now ≡ task.now.domain.kinds },
}

impl<'t> Kinds<'t> {
    /// The types of a task.
    pub fn of(alloc: Global, task: &'t Task) -> Result<Kinds<'t>, NoMemory>
        ensures { IfOk result (λ kinds. kinds.task.now ≡ task.now) }
    {
        let kinds = task.domain.kinds.items();
        let digest = kind_digest(kinds);
        let lows = filed(alloc, kinds, digest.key())?;
        let filed = Filed {
            kinds,
            lows: &lows,
            key: digest.key(),
        };
        let order = Order::of(alloc, &filed)?;
        Ok(Kinds {
            task,
            lows,
            digest,
            order: Rc::new(alloc, order)?,
        })
    }

    /// Which types are below one of the listed ones; no type stands for `object`. Where those
    /// below a type stand together they are taken at once, as long as these are few; else each
    /// declared pair is looked at once at most.
    pub fn below_some(&self, alloc: Global, types: &'t [Ref]) -> Result<Below<'t>, NoMemory>
        ensures task { IfOk result (λ below. below.task.now ≡ self.now.task.now) }
        ensures types { IfOk result (λ below. below.types.now ≡ types.now) }
    {
        let order = self.order.clone()?;
        if has_object(types) {
            return Ok(all_types(alloc, self.task, types, order));
        }
        let Down { found, spans } = self.down_from(alloc, types)?;
        Ok(Below {
            task: self.task,
            types,
            all: false,
            found,
            spans,
            order,
        })
    }

    /// The types that declared pairs lead from, down from the listed ones.
    fn down_from(&self, alloc: Global, types: &'t [Ref]) -> Result<Down<'t>, NoMemory>
        ensures { AreSpans (declared_pairs self.now.task.now)
            self.now.order.value.names self.now.order.value.spans.items
            → IfOk result (λ down. IsDownFrom (declared_pairs self.now.task.now)
            self.now.order.value.names (names_of types.now) down.found down.spans.items) }
    {
        let mut found = listed(alloc, types, self.digest)?;
        let mut spans = Vec::new(alloc);
        let mut at = 0;
        while at < found.len() {
            self.follow(&mut found, &mut spans, at)?;
            at += 1;
        }
        Ok(Down { found, spans })
    }

    /// All that is below the type at a place is taken at once, or else what is directly below it is
    /// found too.
    fn follow(
        &self,
        found: &mut Words<'t>,
        spans: &mut Vec<Span>,
        place: usize,
    ) -> Result<(), NoMemory>
        requires { place < length found.old }
        ensures { OnOk result (IsFollowed (declared_pairs self.now.task.now)
            self.now.order.value.names self.now.order.value.spans.items
            (slice_index_or found.old place [])
            found.old spans.old.items found.new spans.new.items) }
    {
        match self.order.span_at(found.at(place)) {
            Some(span) if spans.len() < MOST_SPANS => {
                spans.push(span)?;
                Ok(())
            }
            _ => self.add_lows(found, place),
        }
    }

    /// What is declared directly below the type at a place is found too.
    fn add_lows(&self, found: &mut Words<'t>, place: usize) -> Result<(), NoMemory>
        requires { place < length found.old }
        ensures { OnOk result (found.new ≡ with_names found.old
            (lows_under (declared_pairs self.now.task.now) (slice_index_or found.old place []))) }
    {
        match self.lows.get(found.at(place)) {
            None => Ok(()),
            Some(lows) => found.extend(lows.items()),
        }
    }
}

/// The listed types, each once.
fn listed<'t>(alloc: Global, types: &'t [Ref], declared: Digest) -> Result<Words<'t>, NoMemory>
    ensures { IfOk result (λ found. found ≡ with_names [] (names_of types.now)) }
{
    let mut digest = declared;
    digest.tell_types(types);
    let mut found = Words::new(alloc, digest.key());
    for kind in types {
        found.add(kind.name.bytes())?;
    }
    Ok(found)
}

/// Whether the type is the one that each type is below.
fn is_object(kind: &[u8]) -> bool
    ensures { result ≡ same_name kind.now object_type }
{
    kind == b"object".as_slice()
}

/// Whether `object` is one of the listed types.
fn lists_object(types: &[Ref]) -> bool
    ensures { result ≡ list_any (λ kind. same_name kind.name object_type) types.now }
{
    types.iter().any(|kind| is_object(kind.name.bytes()))
}

/// Whether every type is below one of the listed ones, since `object` is listed or no type is.
#[tactic(auto, using(crate::proofs::SearchLemmas::top_laws))]
fn has_object(types: &[Ref]) -> bool
    ensures { result ≡ has_name (type_names types.now) object_type }
{
    types.len() == 0 || lists_object(types)
}

/// What a search down has found: types one by one, and types that stand together.
#[derive(Drop)]
struct Down<'t> {
    found: Words<'t>,
    spans: Vec<Span>,
}

/// The types below some that are listed.
#[derive(Drop)]
pub struct Below<'t> {
    task: &'t Task,
    types: &'t [Ref],
    pub(crate) all: bool,
    pub(crate) found: Words<'t>,
    pub(crate) spans: Vec<Span>,
    order: Rc<Order<'t>>,
    ghost told: { IsBelowTest task.now types.now
        (λ name. all || is_found order.value.names found spans.items name) },
}

/// Every type is below the listed ones.
fn all_types<'t>(alloc: Global, task: &'t Task, types: &'t [Ref], order: Rc<Order<'t>>) -> Below<'t>
    requires { has_name (type_names types.now) object_type ≡ true }
    ensures task { result.task.now ≡ task.now }
    ensures types { result.types.now ≡ types.now }
{
    Below {
        task,
        types,
        all: true,
        found: Words::new(alloc, Digest::new().key()),
        spans: Vec::new(alloc),
        order,
    }
}

impl<'t> Below<'t> {
    /// Whether the type is below one of the listed ones. It takes no memory.
    fn has(&self, kind: &Name) -> bool
        ensures { result ≡ is_below_some self.now.task.now self.now.types.now kind.now }
    {
        self.has_word(kind.bytes())
    }

    /// The same of a type's bytes.
    fn has_word(&self, kind: &[u8]) -> bool
        ensures { result ≡ is_below_some self.now.task.now self.now.types.now kind.now }
    {
        self.all || self.is_found(kind)
    }

    /// Whether the type was found, or is among those that stand together.
    fn is_found(&self, kind: &[u8]) -> bool
        ensures { result
            ≡ is_found self.now.order.value.names self.now.found self.now.spans.items kind.now }
    {
        self.found.has(kind) || self.is_spanned(kind)
    }

    /// Whether the type is among those that stand together.
    fn is_spanned(&self, kind: &[u8]) -> bool
        ensures { result ≡ list_any
            (is_in (place_of self.now.order.value.names kind.now)) self.now.spans.items }
    {
        is_spanned(&self.spans, self.order.place(kind))
    }

    /// Whether one of these types is below one of the listed ones; no type stands for `object`.
    pub fn has_some(&self, types: &[Ref]) -> bool
        ensures { result
            ≡ list_any (is_below_some self.now.task.now self.now.types.now) (type_names types.now) }
    {
        if types.len() == 0 {
            return self.has_word(b"object");
        }
        self.has_some_named(types)
    }

    /// Whether each of these types is below one of the listed ones; no type stands for `object`.
    pub fn has_each(&self, types: &[Ref]) -> bool
        ensures { result
            ≡ list_all (is_below_some self.now.task.now self.now.types.now) (type_names types.now) }
    {
        if types.len() == 0 {
            return self.has_word(b"object");
        }
        self.has_each_named(types)
    }

    /// Whether one of these types, as they stand, is below one of the listed ones.
    fn has_some_named(&self, types: &[Ref]) -> bool
        ensures { result ≡ list_any
            (λ kind. is_below_some self.now.task.now self.now.types.now kind.name) types.now }
    {
        types.iter().any(|kind| self.has(&kind.name))
    }

    /// Whether each of these types, as they stand, is below one of the listed ones.
    fn has_each_named(&self, types: &[Ref]) -> bool
        ensures { result ≡ list_all
            (λ kind. is_below_some self.now.task.now self.now.types.now kind.name) types.now }
    {
        types.iter().all(|kind| self.has(&kind.name))
    }
}
