//! Numbers.

ghost use Rattle.std.specs.Prelude.{◌≡◌, ◌<◌, ◌^◌, true, fold, length, is_ok, IsSome, Some, None, MatchOption, IfSome};
ghost use Rattle.std.specs.Option.{SomeIff};
ghost use Rattle.std.specs.Str.{str_to_ascii_lowercase};
ghost use Rattle.p3_task.specs.Decimals.{at_point, is_decimal, digits_of, places_of};
ghost use Rattle.p3_task.specs.Grammar.Words.{numeral_place};
ghost use Rattle.p3_task.specs.declared.expression.Expression.TheVariants.{Word};
ghost use Rattle.p3_outline.specs.Nodes.{expression_of};
ghost use Rattle.p3_syntax.specs.Reading.{Gives};
ghost use Rattle.p3_syntax.specs.Trees.{HasRoom, HasRoomAt, HasRoomFor, IsDecimalOf, decimal_value, numeral_with, with_digit};

use p3_base::NoMemory;
use p3_outline::View;
use p3_task::Numeral;

/// The bytes before the first point, and those behind it where there is one.
fn at_point(word: &[u8]) -> (&[u8], Option<&[u8]>)
    ensures before { (at_point word.now).0 ≡ result.0.now }
    ensures behind { MatchOption result.1 ((at_point word.now).1 ≡ None) (λ behind.
        (at_point word.now).1 ≡ Some behind.now) }
{
    for (index, byte) in word.iter().enumerate() {
        if *byte == b'.' {
            return (&word[..index], Some(&word[index + 1..]));
        }
    }
    (word, None)
}

/// A number before its value is known.
#[derive(Clone, Copy)]
struct Decimal<'a> {
    /// The digits before the point.
    whole: &'a [u8],
    /// Those behind it.
    places: &'a [u8],
}

/// The digits of a word that is a number.
fn digits_of(word: &[u8]) -> Decimal<'_>
    requires number { is_decimal word.now ≡ true }
    ensures { IsDecimalOf result word.now }
{
    let (whole, places) = at_point(word);
    match places {
        None => Decimal { whole, places: &[] },
        Some(places) => Decimal { whole, places },
    }
}

/// A number with one digit more, where it fits.
fn with_digit(value: u64, digit: u8) -> Option<u64>
    ensures { SomeIff result (with_digit value digit < 2 ^ 64) (with_digit value digit) }
{
    let more = value.checked_mul(10)?;
    more.checked_add(u64::from(digit.saturating_sub(b'0')))
}

/// A number with more digits behind it, where it fits.
fn with_digits(start: u64, digits: &[u8]) -> Option<u64>
    ensures { SomeIff result (fold with_digit start digits.now < 2 ^ 64)
        (fold with_digit start digits.now) }
{
    let mut value = start;
    for digit in digits {
        let Some(more) = with_digit(value, *digit) else {
            return None;
        };
        value = more;
    }
    Some(value)
}

/// The value of a number, where it fits.
#[tactic(auto, using(crate::proofs::NumeralLemmas::grown, std::proofs::lemmas::Grind::common_steps))]
fn value_of(decimal: Decimal<'_>) -> Option<u64>
    ensures { SomeIff result (decimal_value decimal.entry < 2 ^ 64) (decimal_value decimal.entry) }
{
    match with_digits(0, decimal.whole) {
        Some(whole) => with_digits(whole, decimal.places),
        None => None,
    }
}

/// A number of these digits, where there is room for it.
fn numeral_of(text: &[u8], at: u32, decimal: Decimal<'_>) -> Option<Numeral>
    ensures { SomeIff result (HasRoomFor text.now decimal.entry)
        (numeral_with text.now at decimal.entry) }
{
    Some(Numeral {
        at,
        len: u32::try_from(text.len()).ok()?,
        digits: value_of(decimal)?,
        places: u32::try_from(decimal.places.len()).ok()?,
    })
}

/// The number that a word is.
fn numeral_word(text: &[u8], at: u32) -> Option<Numeral>
    requires tree { IsSome (numeral_place (Word at (str_to_ascii_lowercase text.now))) }
    ensures numeral { IfSome result (λ numeral.
        numeral_place (Word at (str_to_ascii_lowercase text.now)) ≡ Some numeral) }
    ensures room { HasRoom (str_to_ascii_lowercase text.now) → IsSome result }
{
    numeral_of(text, at, digits_of(text))
}

/// A number. One that does not fit in a `u64` finds no room.
pub fn numeral(view: View<'_, '_>) -> Result<Numeral, NoMemory>
    requires tree { IsSome (numeral_place (expression_of view)) }
    ensures numeral { Gives result (numeral_place (expression_of view.entry)) }
    // Every other number is read.
    ensures room { HasRoomAt (expression_of view.entry) → is_ok result ≡ true }
{
    match numeral_word(view.word().unwrap(), view.offset()) {
        Some(numeral) => Ok(numeral),
        None => Err(NoMemory),
    }
}
