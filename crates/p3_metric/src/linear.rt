//! Expressions as linear forms.

ghost use Rattle.std.specs.Prelude.{
  ◌≡◌,
  ◌&&◌,
  ◌||◌,
  ◌+◌,
  ◌^◌,
  ◌<◌,
  ◌≤◌,
  pos,
  negsuc,
  ◌+ℤ◌,
  ◌*ℤ◌,
  true,
  false,
  IfOk,
};
ghost use Rattle.std.specs.Int.RustNames.{unsigned_abs};
ghost use Rattle.p3_task.specs.Refusals.Metric.{is_within};
ghost use Rattle.p3_task.specs.Sides.{weight_bound};
ghost use Rattle.p3_metric.specs.Entries.{
  AreBelow,
  AreWithin,
  IsJudged,
  IsSomeLarge,
  number_at,
  products,
};
ghost use Rattle.p3_metric.specs.Forms.{
  IsBounded,
  IsDifference,
  IsLarge,
  IsProduct,
  IsScaled,
  IsSmall,
  IsSum,
};

use crate::entries::{Entries, Judged, combined, is_within_bound, no_entries, scaled};
use p3_base::NoMemory;
use std::alloc::Global;

/// What an expression comes to: a constant, and what each count and each unit of the total cost adds
/// to it, in units of the expression's decimal places.
#[derive(Drop)]
pub(crate) struct Linear<'t> {
    /// The decimal places.
    pub(crate) places: u32,
    /// What the expression comes to where all counts and the total cost are 0.
    pub(crate) constant: i128,
    /// The coefficient of the total cost.
    pub(crate) cost: i128,
    /// The coefficients of the counts.
    pub(crate) counts: Entries<'t>,
    /// Whether the expression mentions a count or the total cost.
    pub(crate) mention: bool,
}

/// What a form comes to without counts and costs.
#[derive(Clone, Copy)]
struct Head {
    places: u32,
    constant: i128,
}

impl<'t> Linear<'t> {
    /// Whether the expression mentions a count or the total cost.
    fn mentions_any(&self) -> bool
        ensures { result ≡ self.now.mention }
    {
        self.mention
    }

    /// What it comes to without counts and costs.
    fn head(&self) -> Head
        ensures places { result.places ≡ self.now.places }
        ensures constant { result.constant ≡ self.now.constant }
    {
        Head {
            places: self.places,
            constant: self.constant,
        }
    }
}

/// A form, and whether its constant and its coefficients are below the bound of weights.
#[derive(Drop)]
pub(crate) struct Measured<'t> {
    /// The form.
    pub(crate) form: Linear<'t>,
    /// Whether all are below.
    pub(crate) small: bool,
}

/// The form, of whose counts it is known whether they are below the bound.
fn measure<'t>(form: Linear<'t>, counts_within: bool) -> Measured<'t>
    requires within { counts_within ≡ true → AreWithin (number_at form.counts) }
    requires large { counts_within ≡ false → IsSomeLarge (number_at form.counts) }
    ensures form { result.form ≡ form.entry }
    ensures small { result.small ≡ true → IsSmall form.entry }
    ensures large { result.small ≡ false → IsLarge form.entry }
{
    let Linear {
        places,
        constant,
        cost,
        counts,
        mention,
    } = form;
    let small = is_within_bound(constant) & (is_within_bound(cost) & counts_within);
    let form = Linear {
        places,
        constant,
        cost,
        counts,
        mention,
    };
    Measured { form, small }
}

/// The power of ten.
fn power_of_ten(exponent: u32) -> i128
    requires { exponent ≤ 6 }
    ensures power { result ≡ pos (10 ^ exponent) }
    ensures small { unsigned_abs result < 2 ^ 20 }
{
    match exponent {
        0 => 1,
        1 => 10,
        2 => 100,
        3 => 1_000,
        4 => 10_000,
        5 => 100_000,
        _ => 1_000_000,
    }
}

/// The sum of two numbers, each times a factor.
fn mixed(first: i128, factor: i128, second: i128, other: i128) -> i128
    requires first { unsigned_abs first < 2 ^ 64 }
    requires factor { unsigned_abs factor < 2 ^ 20 }
    requires second { unsigned_abs second < 2 ^ 64 }
    requires other { unsigned_abs other < 2 ^ 20 }
    ensures { result ≡ first *ℤ factor +ℤ second *ℤ other }
{
    first * factor + second * other
}

/// The sum of two expressions.
pub(crate) fn plus<'t>(
    alloc: Global,
    first: Linear<'t>,
    second: Linear<'t>,
) -> Result<Measured<'t>, NoMemory>
    requires first { IsBounded first }
    requires second { IsBounded second }
    ensures sum { IfOk result (λ measured. IsSum first.entry second.entry measured.form) }
    ensures mention { IfOk result (λ measured.
        measured.form.mention ≡ (first.entry.mention || second.entry.mention)) }
    ensures small { IfOk result (λ measured. measured.small ≡ true → IsSmall measured.form) }
    ensures large { IfOk result (λ measured. measured.small ≡ false → IsLarge measured.form) }
{
    let Linear {
        places: first_places,
        constant: first_constant,
        cost: first_cost,
        counts: first_counts,
        mention: first_mention,
    } = first;
    let Linear {
        places: second_places,
        constant: second_constant,
        cost: second_cost,
        counts: second_counts,
        mention: second_mention,
    } = second;
    let places = first_places.max(second_places);
    let factor = power_of_ten(places - first_places);
    let other = power_of_ten(places - second_places);
    let constant = mixed(first_constant, factor, second_constant, other);
    let cost = mixed(first_cost, factor, second_cost, other);
    let Judged { entries, within } = combined(alloc, first_counts, factor, second_counts, other)?;
    let form = Linear {
        places,
        constant,
        cost,
        counts: entries,
        mention: first_mention | second_mention,
    };
    Ok(measure(form, within))
}

/// Makes the numbers, each times 0, without an entry: else a product of many zeros would take each
/// entry once for each of them.
fn cleared<'t>(alloc: Global, entries: &Entries<'t>) -> Judged<'t>
    ensures { IsJudged (products (pos 0) (number_at entries.now)) result }
{
    Judged {
        entries: no_entries(alloc, *entries.hasher()),
        within: true,
    }
}

/// Multiplies each of the numbers by the factor.
fn multiplied<'t>(alloc: Global, entries: Entries<'t>, factor: i128) -> Result<Judged<'t>, NoMemory>
    requires fits { AreBelow (2 ^ 126) (products factor (number_at entries)) }
    requires within { AreWithin (number_at entries) }
    ensures { IfOk result (IsJudged (products factor (number_at entries.entry))) }
{
    if factor == 0 {
        return Ok(cleared(alloc, &entries));
    }
    if factor == 1 {
        Ok(Judged {
            entries,
            within: true,
        })
    } else {
        scaled(alloc, entries, factor)
    }
}

/// The product with a constant that has so many decimal places.
pub(crate) fn times<'t>(
    alloc: Global,
    form: Linear<'t>,
    factor: i128,
    places: u32,
) -> Result<Measured<'t>, NoMemory>
    requires form { IsBounded form }
    requires factor { unsigned_abs factor < 2 ^ 64 }
    requires constant { unsigned_abs (form.constant *ℤ factor) < 2 ^ 126 }
    requires places { form.places + places ≤ 6 }
    ensures product { IfOk result (λ measured. IsScaled form.entry factor places measured.form) }
    ensures mention { IfOk result (λ measured. measured.form.mention ≡ form.entry.mention) }
    ensures small { IfOk result (λ measured. measured.small ≡ true → IsSmall measured.form) }
    ensures large { IfOk result (λ measured. measured.small ≡ false → IsLarge measured.form) }
{
    let Linear {
        places: own_places,
        constant,
        cost,
        counts,
        mention,
    } = form;
    let Judged { entries, within } = multiplied(alloc, counts, factor)?;
    let product = Linear {
        places: own_places + places,
        constant: constant * factor,
        cost: cost * factor,
        counts: entries,
        mention,
    };
    Ok(measure(product, within))
}

/// The negation.
pub(crate) fn negated<'t>(alloc: Global, form: Linear<'t>) -> Result<Measured<'t>, NoMemory>
    requires { IsBounded form }
    ensures scaled { IfOk result (λ measured.
        IsScaled form.entry (negsuc 0) 0 measured.form) }
    ensures mention { IfOk result (λ measured. measured.form.mention ≡ form.entry.mention) }
    ensures small { IfOk result (λ measured.
        measured.small ≡ true → IsSmall measured.form) }
    ensures large { IfOk result (λ measured.
        measured.small ≡ false → IsLarge measured.form) }
{
    times(alloc, form, -1, 0)
}

/// The difference of two expressions.
pub(crate) fn minus<'t>(
    alloc: Global,
    first: Linear<'t>,
    second: Linear<'t>,
) -> Result<Measured<'t>, NoMemory>
    requires first { IsBounded first }
    requires second { IsBounded second }
    ensures difference { IfOk result (λ measured.
        IsDifference first.entry second.entry measured.form) }
    ensures small { IfOk result (λ measured.
        measured.small ≡ true → IsSmall measured.form) }
    ensures large { IfOk result (λ measured.
        measured.small ≡ false → IsLarge measured.form) }
{
    let negation = negated(alloc, second)?.form;
    plus(alloc, first, negation)
}

/// The product of two expressions, of which one at least is constant.
pub(crate) fn product<'t>(
    alloc: Global,
    first: Linear<'t>,
    second: Linear<'t>,
) -> Result<Measured<'t>, NoMemory>
    requires first { IsBounded first }
    requires constant { is_within weight_bound first.constant ≡ true }
    requires second { IsBounded second }
    requires places { first.places + second.places ≤ 6 }
    requires apart { (first.mention && second.mention) ≡ false }
    ensures product { IfOk result (λ measured.
        IsProduct first.entry second.entry measured.form) }
    ensures mention { IfOk result (λ measured.
        measured.form.mention ≡ (first.entry.mention || second.entry.mention)) }
    ensures small { IfOk result (λ measured.
        measured.small ≡ true → IsSmall measured.form) }
    ensures large { IfOk result (λ measured.
        measured.small ≡ false → IsLarge measured.form) }
{
    if second.mentions_any() {
        let factor = first.head();
        times(alloc, second, factor.constant, factor.places)
    } else {
        let factor = second.head();
        times(alloc, first, factor.constant, factor.places)
    }
}
