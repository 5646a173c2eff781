//! The number of a sample, as a word of the command line.

ghost use Rattle.std.specs.Prelude.{◌≡◌, ◌≤◌};
ghost use Rattle.std.specs.Option.{option_map};
ghost use Rattle.p3_tree.specs.Commands.{sample_number, sample_limit};

use p3_base::number_of;

/// The greatest number of a sample.
const LAST: u32 = 200;

/// The number of a sample.
#[derive(Clone, Copy)]
pub(crate) struct SampleNumber {
    /// From 1 to 200.
    pub(crate) number: u32,
    pub ghost some: { 1 ≤ number },
    pub ghost few: { number ≤ sample_limit },
}

/// Reads the number that the word is, without superfluous zeros. It takes no memory.
pub(crate) fn sample_number(word: &[u8]) -> Option<SampleNumber>
    ensures { option_map (λ found. found.number) result ≡ sample_number word.now }
{
    match number_of(word) {
        Some(number) if 1 <= number && number <= LAST => Some(SampleNumber { number }),
        _ => None,
    }
}
