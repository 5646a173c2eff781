//! Numbers by name, of which all but a few are 0.

ghost use Rattle.std.specs.Prelude.{
  ◌≡◌,
  ◌^◌,
  ◌<◌,
  ℕ,
  List,
  pos,
  ◌+ℤ◌,
  ◌*ℤ◌,
  length,
  true,
  false,
  OnOk,
  IfOk,
  IfSome,
  IfNone,
};
ghost use Rattle.std.specs.Int.RustNames.{unsigned_abs};
ghost use Rattle.p3_task.specs.Refusals.Metric.{is_within};
ghost use Rattle.p3_task.specs.Sides.{weight_bound};
ghost use Rattle.p3_metric.specs.Entries.{
  AreBelow,
  AreWithin,
  IsJudged,
  IsSomeLarge,
  changed,
  mixed,
  number_at,
  poured,
  products,
};
ghost use Rattle.p3_metric.specs.Forms.{one_each};

use indexmap::IndexMap;
use p3_base::NoMemory;
use p3_numbers::Key;
use std::alloc::Global;

/// The numbers that are not 0, and perhaps some that are.
pub(crate) type Entries<'t> = IndexMap<&'t [u8], i128, Key>;

/// Coefficients and constants of a metric stay below it in absolute value.
const WEIGHT_BOUND: i128 = 1 << 62;

/// The number of the name.
#[tactic(auto, unfolding(crate::specs::Entries::number_at))]
pub(crate) fn number_of(entries: &Entries, name: &[u8]) -> i128
    ensures { result ≡ number_at entries.now name.now }
{
    entries.get(name).copied().unwrap_or(0)
}

/// Whether the number is below the bound of weights.
pub(crate) fn is_within_bound(number: i128) -> bool
    ensures { result ≡ is_within weight_bound number }
{
    number < WEIGHT_BOUND && -WEIGHT_BOUND < number
}

/// Makes entries without any.
pub(crate) fn no_entries<'t>(alloc: Global, key: Key) -> Entries<'t>
    ensures { (name : List ℕ) → number_at result name ≡ pos 0 }
{
    IndexMap::with_hasher(alloc, key)
}

/// Adds to the number of the name, and says whether the sum is below the bound of weights.
fn add<'t>(entries: &mut Entries<'t>, name: &'t [u8], number: i128) -> Result<bool, NoMemory>
    requires fits { unsigned_abs (number_at entries.old name.now +ℤ number) < 2 ^ 127 }
    ensures sum { OnOk result ((other : List ℕ)
        → number_at entries.new other
        ≡ changed (number_at entries.old) name.now
        (number_at entries.old name.now +ℤ number) other) }
    ensures within { IfOk result (λ within.
        within ≡ is_within weight_bound (number_at entries.old name.now +ℤ number)) }
{
    let sum = number_of(entries, name) + number;
    entries.insert(name, sum)?;
    Ok(is_within_bound(sum))
}

/// The entry of one name, whose number is 1.
pub(crate) fn one_entry<'t>(
    alloc: Global,
    key: Key,
    name: &'t [u8],
) -> Result<Entries<'t>, NoMemory>
    ensures { IfOk result (λ entries. (other : List ℕ)
        → number_at entries other ≡ one_each name.now other) }
{
    let mut entries = IndexMap::with_hasher(alloc, key);
    add(&mut entries, name, 1)?;
    Ok(entries)
}

/// The product.
fn times(factor: i128, number: i128) -> i128
    requires { unsigned_abs (factor *ℤ number) < 2 ^ 127 }
    ensures { result ≡ factor *ℤ number }
{
    factor * number
}

/// A name with its number.
#[derive(Clone, Copy)]
pub(crate) struct Entry<'t> {
    name: &'t [u8],
    number: i128,
}

/// Takes one entry out.
fn take<'t>(entries: &mut Entries<'t>) -> Option<Entry<'t>>
    ensures own { IfSome result (λ entry. entry.number ≡ number_at entries.old entry.name.now) }
    ensures rest { IfSome result (λ entry. (name : List ℕ)
        → number_at entries.new name
        ≡ changed (number_at entries.old) entry.name.now (pos 0) name) }
    ensures fewer { IfSome result (λ entry.
        length entries.new.entries < length entries.old.entries) }
    ensures none { IfNone result ((name : List ℕ) → number_at entries.old name ≡ pos 0) }
{
    match entries.pop() {
        None => None,
        Some(pair) => Some(Entry {
            name: pair.0,
            number: pair.1,
        }),
    }
}

/// Adds the numbers of a part, each times the factor. Whether all of them are below the bound.
fn pour<'t>(
    entries: &mut Entries<'t>,
    mut part: Entries<'t>,
    factor: i128,
) -> Result<bool, NoMemory>
    requires entries { AreBelow (2 ^ 125) (number_at entries.old) }
    requires part { AreBelow (2 ^ 126) (products factor (number_at part)) }
    ensures sums { OnOk result ((name : List ℕ)
        → number_at entries.new name
        ≡ poured (number_at entries.old) factor (number_at part.entry) name) }
    ensures within { IfOk result (λ within. within ≡ true
        → AreWithin (number_at entries.old) → AreWithin (number_at entries.new)) }
    ensures large { IfOk result (λ within. within ≡ false → IsSomeLarge (number_at entries.new)) }
{
    let mut within = true;
    while let Some(entry) = take(&mut part) {
        within &= add(entries, entry.name, times(factor, entry.number))?;
    }
    Ok(within)
}

/// Entries, and whether all numbers are below the bound of weights.
#[derive(Drop)]
pub(crate) struct Judged<'t> {
    /// The entries.
    pub(crate) entries: Entries<'t>,
    /// Whether all are below.
    pub(crate) within: bool,
}

/// The numbers, each times the factor.
pub(crate) fn scaled<'t>(
    alloc: Global,
    entries: Entries<'t>,
    factor: i128,
) -> Result<Judged<'t>, NoMemory>
    requires fits { AreBelow (2 ^ 126) (products factor (number_at entries)) }
    ensures { IfOk result (IsJudged (products factor (number_at entries.entry))) }
{
    let mut products = IndexMap::with_hasher(alloc, *entries.hasher());
    let within = pour(&mut products, entries, factor)?;
    Ok(Judged {
        entries: products,
        within,
    })
}

/// The numbers of both, each times a factor. Where those of the first stay as they are, the entries
/// of the second alone are looked at.
fn merged<'t>(
    alloc: Global,
    first: Entries<'t>,
    factor: i128,
    second: Entries<'t>,
    other: i128,
) -> Result<Judged<'t>, NoMemory>
    requires first { AreBelow (2 ^ 124) (products factor (number_at first)) }
    requires second { AreBelow (2 ^ 124) (products other (number_at second)) }
    requires within { AreWithin (number_at first) }
    ensures { IfOk result (IsJudged
        (mixed (number_at first.entry) factor (number_at second.entry) other)) }
{
    if factor == 1 {
        let mut entries = first;
        let within = pour(&mut entries, second, other)?;
        return Ok(Judged { entries, within });
    }
    let mut entries = scaled(alloc, first, factor)?.entries;
    pour(&mut entries, second, other)?;
    scaled(alloc, entries, 1)
}

/// The numbers of both, each times a factor. The smaller of the two is poured into the other.
pub(crate) fn combined<'t>(
    alloc: Global,
    first: Entries<'t>,
    factor: i128,
    second: Entries<'t>,
    other: i128,
) -> Result<Judged<'t>, NoMemory>
    requires first { AreBelow (2 ^ 124) (products factor (number_at first)) }
    requires second { AreBelow (2 ^ 124) (products other (number_at second)) }
    requires first_within { AreWithin (number_at first) }
    requires second_within { AreWithin (number_at second) }
    ensures { IfOk result (IsJudged
        (mixed (number_at first.entry) factor (number_at second.entry) other)) }
{
    if first.len() < second.len() {
        merged(alloc, second, other, first, factor)
    } else {
        merged(alloc, first, factor, second, other)
    }
}
