//! Counts that are cut at a number above all limits.

ghost use Rattle.std.specs.Prelude.{◌≡◌, ◌+◌, ◌*◌, length};
ghost use Rattle.p3_numbers.specs.Slots.{range_at};
ghost use Rattle.p3_limits.specs.Cuts.{cut, cut_choices};

use p3_numbers::Numbers;

/// The sum, `u64::MAX` where it is more.
#[tactic(auto, unfolding(crate::specs::Cuts::cut))]
pub(crate) fn cut_sum(first: u64, second: u64) -> u64
    ensures { result ≡ cut (first + second) }
{
    first.saturating_add(second)
}

/// The product, `u64::MAX` where it is more.
#[tactic(auto, unfolding(crate::specs::Cuts::cut))]
pub(crate) fn cut_product(first: u64, second: u64) -> u64
    ensures { result ≡ cut (first * second) }
{
    first.saturating_mul(second)
}

/// The number, `u64::MAX` where it is more.
#[tactic(auto, unfolding(crate::specs::Cuts::cut))]
pub fn cut_units(units: u128) -> u64
    ensures { result ≡ cut units }
{
    match u64::try_from(units) {
        Ok(units) => units,
        Err(_) => u64::MAX,
    }
}

/// How many objects a range has.
fn range_len(numbers: &Numbers, range: u32) -> u64
    ensures { result ≡ length (range_at numbers.now range) }
{
    match numbers.ranges.get(range as usize) {
        Some(objects) => objects.len() as u64,
        None => 0,
    }
}

/// How many choices there are of one object of each range, `u64::MAX` where a product on the way is
/// more. It takes no memory.
pub(crate) fn choice_count(numbers: &Numbers, ranges: &[u32]) -> u64
    ensures { result ≡ cut_choices numbers.now ranges.now }
{
    let mut count = 1;
    for range in ranges {
        count = cut_product(count, range_len(numbers, *range));
    }
    count
}
