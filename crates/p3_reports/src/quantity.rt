//! Numbers with a decimal point, and their texts.

ghost use Rattle.std.specs.Prelude.{◌≡◌, ◌+◌, ◌++◌, ◌<◌, ◌^◌, ◌≤◌, length};
ghost use Rattle.std.specs.Fmt.{decimal};
ghost use Rattle.arrayvec.specs.ArrayString.{array_string_len};
ghost use Rattle.p3_tree.specs.Reports.Quantities.{
  magnitude,
  padded,
  shown_quantity,
  sign,
  unsigned_quantity,
};
ghost use Rattle.p3_reports.specs.Zeros.{zeros};

use arrayvec::ArrayString;
use itoa::Buffer;

/// Room for a sign, two numbers of 40 bytes, a point and six zeros.
const TEXT_MAX: usize = 96;

/// A number of units, each of them 1 divided by 10 to the power of the places.
#[derive(Clone, Copy, Debug)]
pub struct Quantity {
    /// How many digits stand behind the point.
    pub places: u32,
    /// How many units.
    pub units: i128,
    pub ghost few: { places ≤ 6 },
}

impl Quantity {
    /// Lays out the number: a sign where it is below 0, and its digits, with a point where it has
    /// places.
    pub(crate) fn text(&self) -> ArrayString<TEXT_MAX>
        ensures { result.bytes ≡ shown_quantity self.now.places self.now.units }
    {
        let mut text = ArrayString::new();
        if self.units < 0 {
            text.push_str("-");
        }
        push_unsigned(&mut text, self.places, self.units.unsigned_abs());
        text
    }
}

/// Appends a number of units without a sign.
fn push_unsigned(text: &mut ArrayString<TEXT_MAX>, places: u32, units: u128)
    requires few { places ≤ 6 }
    requires room { array_string_len text.old ≤ 1 }
    ensures { text.new.bytes ≡ text.old.bytes ++ unsigned_quantity places units }
{
    if places == 0 {
        push_number(text, units);
        return;
    }
    let scale = 10u128.pow(places);
    push_number(text, units / scale);
    text.push_str(".");
    push_padded(text, places as usize, units % scale);
}

/// Appends a number, with zeros before it up to a length.
fn push_padded(text: &mut ArrayString<TEXT_MAX>, len: usize, number: u128)
    requires few { len ≤ 6 }
    requires room { array_string_len text.old ≤ 48 }
    ensures { text.new.bytes ≡ text.old.bytes ++ padded len number }
{
    let mut buffer = Buffer::new();
    let digits = buffer.format(number);
    push_zeros(text, len.saturating_sub(digits.len()));
    text.push_str(digits);
}

/// Appends zeros.
fn push_zeros(text: &mut ArrayString<TEXT_MAX>, count: usize)
    requires few { count ≤ 6 }
    requires room { array_string_len text.old ≤ 48 }
    ensures bytes { text.new.bytes ≡ text.old.bytes ++ zeros count }
    ensures len { array_string_len text.new ≡ array_string_len text.old + count }
{
    for place in 0..count {
        text.push_str("0");
    }
}

/// Appends a number by its digits.
fn push_number(text: &mut ArrayString<TEXT_MAX>, number: u128)
    requires { array_string_len text.old ≤ 48 }
    ensures bytes { text.new.bytes ≡ text.old.bytes ++ decimal number }
    ensures len { array_string_len text.new ≤ array_string_len text.old + 40 }
{
    let mut buffer = Buffer::new();
    text.push_str(buffer.format(number));
}
