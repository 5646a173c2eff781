//! Choices of objects by the words of a step's text.

ghost use Rattle.std.specs.Prelude.{◌≡◌};
ghost use Rattle.std.specs.List.{All};
ghost use Rattle.p3_lexer.specs.StepWords.{words_left};
ghost use Rattle.p3_numbers.specs.Slots.{range_at};
ghost use Rattle.p3_numbers.specs.Choices.{choice_count};
ghost use Rattle.p3_types.specs.Finds.{AreDistinct, IsRange, IsChoiceOf};
ghost use Rattle.p3_types.specs.NameOrders.{IsNameOrder};

use crate::finding::{Stretch, narrowed};
use crate::steps::objects_of;
use p3_lexer::Lexer;
use p3_numbers::Numbers;

/// The number of the choice of the objects with the names that come next, among so many.
pub(crate) fn choice_of_words(
    numbers: &Numbers,
    order: &[u32],
    ranges: &[u32],
    lexer: &mut Lexer<'_>,
    count: u32,
) -> Option<u32>
    requires order { IsNameOrder numbers.now.objects order.now }
    requires distinct { AreDistinct numbers.now.objects }
    requires ranges { All
        (λ range. IsRange numbers.now.objects (range_at numbers.now range))
        ranges.now }
    requires count { count ≡ choice_count numbers.now ranges.now }
    ensures { IsChoiceOf numbers.now ranges.now (words_left lexer.old) result }
{
    if count == 0 {
        return None;
    }
    let mut stretch = Stretch {
        first: 0,
        count: count as usize,
    };
    for place in 0..ranges.len() {
        let objects = objects_of(numbers, ranges[place]);
        let Some(word) = lexer.next_word() else {
            return None;
        };
        match narrowed(numbers.objects.items(), order, objects, word, stretch) {
            Some(inner) => stretch = inner,
            None => return None,
        }
    }
    match lexer.next_word() {
        Some(_) => None,
        None => Some(stretch.first as u32),
    }
}
