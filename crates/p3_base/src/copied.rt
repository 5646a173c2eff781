//! The number of a step in the name of an action.

ghost use Rattle.std.specs.Prelude.{◌≡◌, ◌≢◌, ◌<◌, ◌^◌, ℕ, Some, IfSome, IfNone};
ghost use Rattle.std.specs.Prelude.{decimal, true, false, length, slice_index};
ghost use Rattle.p3_base.specs.Copies.{IsNamedFor, is_action_of, is_copy_of, is_question_of};
ghost use Rattle.p3_base.specs.Words.{is_digit};
ghost use Rattle.p3_base.specs.Copied.{IsFirst, IsNoCopy, IsNoNumber, IsNoQuestion};
ghost use Rattle.p3_base.specs.Copied.{IsNotAsked, IsNotNumbered, IsOfNoStep};
ghost use Rattle.p3_base.specs.Copied.{is_asked, is_numbered, is_padded};

/// The number of the step whose copy has that name, where it is below 2^32. It takes no memory.
pub fn copied_step(name: &[u8]) -> Option<u32>
    ensures some { IfSome result (λ number. is_copy_of number name.now ≡ true) }
    ensures small { IfSome result (λ number. number < 2 ^ 32) }
    ensures none { IfNone result (IsNoCopy name.now) }
{
    match name.split_first() {
        Some((b's', rest)) => number_before(rest, b'v'),
        _ => None,
    }
}

/// The number of the step to which the action of that name belongs, where it is below 2^32: the step
/// of which it is a copy, or in whose chain it stands. It takes no memory.
pub fn owning_step(name: &[u8]) -> Option<u32>
    ensures owner { (number : ℕ) → number < 2 ^ 32 → IsNamedFor number name.now
        → result ≡ Some number }
    ensures some { IfSome result (λ number. is_action_of number name.now ≡ true) }
    ensures none { IfNone result (IsOfNoStep name.now) }
{
    let copied = copied_step(name);
    if copied.is_some() {
        copied
    } else {
        asking_step(name)
    }
}

/// The number of the step in whose chain an action of that name asks a question or ends it.
fn asking_step(name: &[u8]) -> Option<u32>
    ensures some { IfSome result (λ number. is_question_of number name.now ≡ true) }
    ensures small { IfSome result (λ number. number < 2 ^ 32) }
    ensures none { IfNone result (IsNoQuestion name.now) }
{
    match name.split_first() {
        Some((b'q', rest)) => number_before_letter(rest),
        _ => None,
    }
}

/// The number in front of the first letter of an answer or of the end.
fn number_before_letter(bytes: &[u8]) -> Option<u32>
    ensures some { IfSome result (λ number. is_asked number bytes.now ≡ true) }
    ensures none { IfNone result (IsNotAsked bytes.now) }
{
    number_before(bytes, b'y')
        .or(number_before(bytes, b'n'))
        .or(number_before(bytes, b'e'))
}

/// The number in front of the first byte that is the mark.
fn number_before(bytes: &[u8], mark: u8) -> Option<u32>
    requires no_digit { is_digit mark ≡ false }
    ensures some { IfSome result (λ number. is_numbered mark number bytes.now ≡ true) }
    ensures none { IfNone result (IsNotNumbered mark bytes.now) }
{
    match first_place(bytes, mark) {
        Some(place) => number_of(&bytes[..place]),
        None => None,
    }
}

/// The place of the first byte that is the mark.
fn first_place(bytes: &[u8], mark: u8) -> Option<usize>
    ensures some { IfSome result (IsFirst mark bytes.now) }
    ensures none { IfNone result
        ((k : ℕ) → k < length bytes.now → slice_index bytes.now k ≢ mark) }
{
    for (place, byte) in bytes.iter().enumerate() {
        if *byte == mark {
            return Some(place);
        }
    }
    None
}

/// The number that is written so, without superfluous zeros, where it is below 2^32. It takes no
/// memory.
pub fn number_of(digits: &[u8]) -> Option<u32>
    ensures some { IfSome result (λ number. decimal number ≡ digits.now) }
    ensures none { IfNone result (IsNoNumber digits.now) }
{
    if is_padded(digits) {
        return None;
    }
    let Ok(text) = str::from_utf8(digits) else {
        return None;
    };
    text.parse().ok()
}

/// Whether a `+` stands in front, or a zero that is not alone.
fn is_padded(digits: &[u8]) -> bool
    ensures { result ≡ is_padded digits.now }
{
    matches!(digits, [b'+', ..] | [b'0', _, ..])
}
