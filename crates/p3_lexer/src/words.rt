//! Classes of words, told without letter case.

ghost use Rattle.std.specs.Prelude.{◌≡◌, take, drop, not, ◌&&◌};
ghost use Rattle.std.specs.Char.{to_ascii_lowercase};
ghost use Rattle.std.specs.List.{list_all};
ghost use Rattle.std.specs.Str.{str_to_ascii_lowercase};
ghost use Rattle.p3_base.specs.Words.{is_digit, is_name, is_variable, is_predicate_name, is_function_name, reserved_words, has_name};
ghost use Rattle.p3_task.specs.Decimals.{are_digits, is_decimal};
ghost use Rattle.p3_task.specs.Names.{same_name, total_cost};
ghost use Rattle.p3_task.specs.Grammar.Halves.{begins_with_colon};
ghost use Rattle.p3_lexer.specs.Words.{goes_on_as_decimal, begins_with_letters};

/// Whether a word is the text, which has no capital letter.
#[tactic(auto, using(crate::proofs::ClassLemmas::same_lowered))]
pub fn is(word: &[u8], text: &[u8]) -> bool
    requires { str_to_ascii_lowercase text.now ≡ text.now }
    ensures { result ≡ same_name text.now (str_to_ascii_lowercase word.now) }
{
    word.eq_ignore_ascii_case(text)
}

/// Whether a word is a name.
pub fn is_name(word: &[u8]) -> bool
    ensures { result ≡ is_name (str_to_ascii_lowercase word.now) }
{
    match word {
        [] => false,
        [first, ..] => first.to_ascii_lowercase() >= b'a' && first.to_ascii_lowercase() <= b'z',
    }
}

/// Whether a word is a variable.
pub fn is_variable(word: &[u8]) -> bool
    ensures { result ≡ is_variable (str_to_ascii_lowercase word.now) }
{
    match word {
        [first, _, ..] => first.to_ascii_lowercase() == b'?',
        _ => false,
    }
}

/// Whether a word begins with `:`.
pub fn begins_with_colon(word: &[u8]) -> bool
    ensures { result ≡ begins_with_colon (str_to_ascii_lowercase word.now) }
{
    match word {
        [] => false,
        [first, ..] => first.to_ascii_lowercase() == b':',
    }
}

// ---- numbers

fn is_digit(byte: &u8) -> bool
    ensures { result ≡ is_digit (to_ascii_lowercase byte.now) }
{
    let byte = byte.to_ascii_lowercase();
    byte >= b'0' && byte <= b'9'
}

fn are_all_digits(word: &[u8]) -> bool
    ensures { result ≡ list_all is_digit (str_to_ascii_lowercase word.now) }
{
    for byte in word {
        if !is_digit(byte) {
            return false;
        }
    }
    true
}

fn are_digits(word: &[u8]) -> bool
    ensures { result ≡ are_digits (str_to_ascii_lowercase word.now) }
{
    match word {
        [] => false,
        [_, ..] => are_all_digits(word),
    }
}

/// Whether a word goes on as a number behind its first digit.
#[tactic(auto, using(crate::proofs::ClassLemmas::point_here, crate::proofs::ClassLemmas::digit_here, crate::proofs::ClassLemmas::other_here))]
fn goes_on_as_decimal(word: &[u8]) -> bool
    ensures { result ≡ goes_on_as_decimal (str_to_ascii_lowercase word.now) }
{
    for (index, byte) in word.iter().enumerate() {
        if *byte == b'.' {
            return are_digits(&word[index + 1..]);
        }
        if !is_digit(byte) {
            return false;
        }
    }
    true
}

/// Whether a word is digits, or digits with one point that is neither first nor last.
#[tactic(auto, using(crate::proofs::ClassLemmas::first_and_behind))]
pub fn is_decimal(word: &[u8]) -> bool
    ensures { result ≡ is_decimal (str_to_ascii_lowercase word.now) }
{
    match word {
        [] => false,
        [first, behind @ ..] => is_digit(first) && goes_on_as_decimal(behind),
    }
}

// ---- names that are not reserved

fn is_reserved_form(word: &[u8]) -> bool
    ensures { result ≡ has_name (take 13 reserved_words) (str_to_ascii_lowercase word.now) }
{
    is(word, b"and")
        || is(word, b"or")
        || is(word, b"not")
        || is(word, b"imply")
        || is(word, b"exists")
        || is(word, b"forall")
        || is(word, b"when")
        || is(word, b"preference")
        || is(word, b"increase")
        || is(word, b"either")
        || is(word, b"define")
        || is(word, b"is-violated")
        || is(word, b"total-time")
}

fn is_reserved_operator(word: &[u8]) -> bool
    ensures { result ≡ has_name (drop 13 reserved_words) (str_to_ascii_lowercase word.now) }
{
    is(word, b"always")
        || is(word, b"sometime")
        || is(word, b"at-most-once")
        || is(word, b"sometime-after")
        || is(word, b"sometime-before")
        || is(word, b"within")
        || is(word, b"always-within")
        || is(word, b"hold-during")
        || is(word, b"hold-after")
        || is(word, b"assign")
        || is(word, b"decrease")
        || is(word, b"scale-up")
        || is(word, b"scale-down")
}

/// Whether two letters come first, as in each reserved word.
fn begins_with_letters(word: &[u8]) -> bool
    ensures { result ≡ begins_with_letters (str_to_ascii_lowercase word.now) }
{
    match word {
        [first, second, ..] => first.is_ascii_alphabetic() && second.is_ascii_alphabetic(),
        _ => false,
    }
}

fn is_listed_as_reserved(word: &[u8]) -> bool
    ensures { result ≡ has_name reserved_words (str_to_ascii_lowercase word.now) }
{
    is_reserved_form(word) || is_reserved_operator(word)
}

/// Whether a word is reserved. Two bytes tell of many that they are not.
#[tactic(auto, using(crate::proofs::ClassLemmas::letters_first))]
fn is_reserved(word: &[u8]) -> bool
    ensures { result ≡ has_name reserved_words (str_to_ascii_lowercase word.now) }
{
    begins_with_letters(word) && is_listed_as_reserved(word)
}

/// Whether a word may be the name of a function.
pub fn is_function_name(word: &[u8]) -> bool
    ensures { result ≡ is_function_name (str_to_ascii_lowercase word.now) }
{
    is_name(word) && !is_reserved(word)
}

#[tactic(auto, using(crate::proofs::ClassLemmas::same_name_sym))]
fn is_free(word: &[u8]) -> bool
    ensures { result
        ≡ (not (has_name reserved_words (str_to_ascii_lowercase word.now))
        && not (same_name (str_to_ascii_lowercase word.now) total_cost)) }
{
    !is_reserved(word) && !is(word, b"total-cost")
}

/// Whether a word may be the name of a predicate.
pub fn is_predicate_name(word: &[u8]) -> bool
    ensures { result ≡ is_predicate_name (str_to_ascii_lowercase word.now) }
{
    is_name(word) && is_free(word)
}
