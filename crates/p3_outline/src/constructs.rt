//! Constructs that are left out by name, wherever they stand.

ghost use Rattle.std.specs.Prelude.{◌≡◌, ◌<◌, ◌^◌, ◌&&◌, length, true, false, if◌then◌else◌, [], Some, None, IfSome};
ghost use Rattle.std.specs.List.{list_all, list_any};
ghost use Rattle.std.specs.Option.{option_map};
ghost use Rattle.std.specs.Str.{str_to_ascii_lowercase};
ghost use Rattle.p3_task.specs.Names.{has_name};
ghost use Rattle.p3_task.specs.Grammar.Words.{word_place};
ghost use Rattle.p3_task.specs.Refusals.Constructs.{left_out, is_word_called, word_when, head_of, is_number_or_list, second_is_number, other_increase, not_a_number, constructs};
ghost use Rattle.p3_task.specs.Refusals.Texts.{construct_in};
ghost use Rattle.p3_outline.specs.Nodes.{slice_of, expression_of, expressions_of, elements};
ghost use Rattle.p3_outline.specs.Constructs.{the_word, least_with, declaring, conditions, is_left_out, begins_as_left_out, is_telling_byte, is_telling_length, may_tell, is_plain, is_showing_length, is_showing, may_show, is_dull, is_dull_length, is_dull_node, the_around, with_head, with_no_head, IsQuiet, FindsShown, FindsBelow, FindsIn, head_shown, behind_shown, place_shown};

use crate::view::{Node, Parts, View, slice_of};
use p3_base::{Code, Pos, Refusal, Role};
use p3_lexer::{is, is_decimal, is_name};

/// How many nodes a list may have that is looked at in one pass of them, so that no node is looked at
/// more often.
const SHORT: usize = 40;

/// A word as it stands in the text.
#[derive(Clone, Copy)]
struct TextWord<'a> {
    text: &'a [u8],
    at: u32,
}

/// The construct of least offset so far: where its word stands, and how many bytes that has.
#[derive(Clone, Copy)]
struct ConstructFound {
    at: u32,
    len: u32,
}

/// What the lists around begin with.
#[derive(Clone, Copy)]
struct Around {
    /// One of them with `:types`, `:constants` or `:objects`.
    declares: bool,
    /// One of them with `when` or `forall`.
    conditional: bool,
    /// One of them with `:init`.
    initial: bool,
    /// One of them with `:metric`.
    metric: bool,
    /// The innermost of them with `:init`.
    is_right_in_init: bool,
}

// ---- words

/// Whether a word is the text, which has no capital letter.
#[tactic(auto, using(p3_lexer::proofs::ClassLemmas::same_name_sym))]
fn is_called(word: TextWord<'_>, text: &[u8]) -> bool
    requires { str_to_ascii_lowercase text.now ≡ text.now }
    ensures { result ≡ is_word_called (the_word word.entry) text.now }
{
    is(word.text, text)
}

fn begins_as_left_out(word: &[u8]) -> bool
    ensures { result ≡ begins_as_left_out (str_to_ascii_lowercase word.now) }
{
    match word {
        [] => false,
        [first, ..] => matches!(
            first.to_ascii_lowercase(),
            b':' | b'w' | b'a' | b'h' | b'd' | b's' | b'/' | b'<' | b'>'
        ),
    }
}

/// Whether a word is left out. The first byte tells of many words that they are not.
#[tactic(auto, using(crate::proofs::ConstructLemmas::left_out_first))]
fn is_left_out(word: &[u8]) -> bool
    ensures { result ≡ is_left_out (str_to_ascii_lowercase word.now) }
{
    begins_as_left_out(word) && is_listed_as_left_out(word)
}

fn is_listed_as_left_out(word: &[u8]) -> bool
    ensures { result ≡ has_name left_out (str_to_ascii_lowercase word.now) }
{
    is(word, b":durative-action")
        || is(word, b":derived")
        || is(word, b":axiom")
        || is(word, b":length")
        || is(word, b"within")
        || is(word, b"always-within")
        || is(word, b"hold-during")
        || is(word, b"hold-after")
        || is(word, b"assign")
        || is(word, b"decrease")
        || is(word, b"scale-up")
        || is(word, b"scale-down")
        || is(word, b"/")
        || is(word, b"<")
        || is(word, b">")
        || is(word, b"<=")
        || is(word, b">=")
}

fn is_declaring(word: &[u8]) -> bool
    ensures { result ≡ has_name declaring (str_to_ascii_lowercase word.now) }
{
    is(word, b":types") || is(word, b":constants") || is(word, b":objects")
}

fn is_condition(word: &[u8]) -> bool
    ensures { result ≡ has_name conditions (str_to_ascii_lowercase word.now) }
{
    is(word, b"when") || is(word, b"forall")
}

/// The word that a view is.
fn word_of<'a>(view: View<'_, 'a>) -> Option<TextWord<'a>>
    ensures word { option_map the_word result ≡ word_place (expression_of view.entry) }
    ensures short { IfSome result (λ word. length word.text.now < 2 ^ 32) }
{
    let text = view.word()?;
    let at = view.offset();
    Some(TextWord { text, at })
}

/// The word at the head of a list.
fn head_of<'a>(view: View<'_, 'a>) -> Option<TextWord<'a>>
    ensures head { option_map the_word result ≡ head_of (expression_of view.entry) }
    ensures short { IfSome result (λ word. length word.text.now < 2 ^ 32) }
{
    word_of(view.parts().next()?)
}

// ---- the lists around

fn with_head(around: Around, word: &[u8]) -> Around
    ensures { result ≡ with_head (str_to_ascii_lowercase word.now) around }
{
    let is_init = is(word, b":init");
    Around {
        declares: is_declaring(word) || around.declares,
        conditional: is_condition(word) || around.conditional,
        initial: is_init || around.initial,
        metric: is(word, b":metric") || around.metric,
        is_right_in_init: is_init,
    }
}

fn with_no_head(around: Around) -> Around
    ensures { result ≡ with_no_head around }
{
    Around {
        is_right_in_init: false,
        ..around
    }
}

// ---- what a list shows

/// The earlier one of what was found and a word, where the test passes.
fn least_if(test: bool, least: Option<ConstructFound>, word: TextWord<'_>) -> Option<ConstructFound>
    requires short { length word.text.now < 2 ^ 32 }
    ensures { result ≡ least_with least (word_when test (the_word word.entry)) }
{
    if !test {
        return least;
    }
    let found = ConstructFound {
        at: word.at,
        len: word.text.len() as u32,
    };
    match least {
        Some(least) if least.at <= found.at => Some(least),
        _ => Some(found),
    }
}

/// By its head alone.
#[tactic(auto, using(crate::proofs::ConstructLemmas::least_append))]
fn head_shown(
    around: Around,
    head: TextWord<'_>,
    least: Option<ConstructFound>,
) -> Option<ConstructFound>
    requires short { length head.text.now < 2 ^ 32 }
    ensures { result ≡ least_with least (head_shown around (the_word head.entry)) }
{
    let least = least_if(is_left_out(head.text), least, head);
    let least = least_if(around.declares && is_called(head, b"either"), least, head);
    least_if(
        around.conditional && is_called(head, b"increase"),
        least,
        head,
    )
}

/// An increase of something else than the total cost.
fn other_increase(
    is_increase: bool,
    behind: Parts<'_, '_>,
    least: Option<ConstructFound>,
) -> Option<ConstructFound>
    ensures { result
        ≡ least_with least
        (if is_increase then other_increase (expressions_of behind.entry) else []) }
{
    if !is_increase {
        return least;
    }
    let mut behind = behind;
    let Some(second) = behind.next() else {
        return least;
    };
    match head_of(second) {
        Some(word) => least_if(!is_called(word, b"total-cost"), least, word),
        None => least,
    }
}

/// A word other than `number` behind a `-`.
fn not_a_number(behind: Parts<'_, '_>, least: Option<ConstructFound>) -> Option<ConstructFound>
    ensures { result ≡ least_with least (not_a_number false (expressions_of behind.entry)) }
{
    let mut left = behind;
    let mut least = least;
    let mut is_behind = false;
    while let Some(part) = left.next() {
        match word_of(part) {
            Some(word) => {
                least = least_if(is_behind && !is_called(word, b"number"), least, word);
                is_behind = is_called(word, b"-");
            }
            None => is_behind = false,
        }
    }
    least
}

fn number_shown(
    is_functions: bool,
    behind: Parts<'_, '_>,
    least: Option<ConstructFound>,
) -> Option<ConstructFound>
    ensures { result ≡ least_with least
        (if is_functions then not_a_number false (expressions_of behind.entry) else []) }
{
    if is_functions {
        not_a_number(behind, least)
    } else {
        least
    }
}

/// Behind its head.
#[tactic(auto, using(crate::proofs::ConstructLemmas::least_append))]
fn behind_shown(
    head: TextWord<'_>,
    behind: Parts<'_, '_>,
    least: Option<ConstructFound>,
) -> Option<ConstructFound>
    ensures { result
        ≡ least_with least (behind_shown (the_word head.entry) (expressions_of behind.entry)) }
{
    let least = other_increase(is_called(head, b"increase"), behind, least);
    number_shown(is_called(head, b":functions"), behind, least)
}

fn is_number_or_list(view: View<'_, '_>) -> bool
    ensures { result ≡ is_number_or_list (expression_of view.entry) }
{
    match view.word() {
        Some(word) => is_decimal(word),
        None => true,
    }
}

fn has_number_or_list(parts: Parts<'_, '_>) -> bool
    ensures { result ≡ list_any is_number_or_list (expressions_of parts.entry) }
{
    let mut left = parts;
    while let Some(part) = left.next() {
        if is_number_or_list(part) {
            return true;
        }
    }
    false
}

fn second_is_number(behind: Parts<'_, '_>) -> bool
    ensures { result ≡ second_is_number (expressions_of behind.entry) }
{
    let mut behind = behind;
    let Some(second) = behind.next() else {
        return false;
    };
    match second.word() {
        Some(word) => is_decimal(word),
        None => false,
    }
}

/// By its head, for what stands behind it or around.
#[tactic(auto, using(crate::proofs::ConstructLemmas::least_append))]
fn place_shown(
    around: Around,
    head: TextWord<'_>,
    behind: Parts<'_, '_>,
    least: Option<ConstructFound>,
) -> Option<ConstructFound>
    requires short { length head.text.now < 2 ^ 32 }
    ensures { result
        ≡ least_with least
        (place_shown around (the_word head.entry) (expressions_of behind.entry)) }
{
    let is_timed = around.is_right_in_init && is_called(head, b"at") && second_is_number(behind);
    let is_compared = is_called(head, b"=") && !around.initial && has_number_or_list(behind);
    let is_other = around.metric
        && is_name(head.text)
        && !is_called(head, b"is-violated")
        && !is_called(head, b"total-cost");
    let least = least_if(is_timed, least, head);
    let least = least_if(is_compared, least, head);
    least_if(is_other, least, head)
}

fn shown(
    around: Around,
    head: TextWord<'_>,
    behind: Parts<'_, '_>,
    least: Option<ConstructFound>,
) -> Option<ConstructFound>
    requires short { length head.text.now < 2 ^ 32 }
    ensures { FindsShown around least (the_word head.entry) (expressions_of behind.entry) result }
{
    let least = head_shown(around, head, least);
    let least = behind_shown(head, behind, least);
    place_shown(around, head, behind, least)
}

// ---- heads that show nothing

fn is_telling_byte(byte: u8) -> bool
    ensures { result ≡ is_telling_byte byte }
{
    matches!(
        byte,
        b'a' | b'd' | b'e' | b'f' | b'h' | b'i' | b's' | b't' | b'w' | b'/' | b'<' | b'=' | b'>'
    )
}

fn is_telling_length(behind: usize) -> bool
    ensures { result ≡ is_telling_length behind }
{
    matches!(behind, 0 | 1 | 3 | 5 | 7 | 9 | 10 | 12)
}

/// Whether a word may be one that shows something as a head outside the metric, or that changes what
/// the lists around are. Its first byte and its length tell it.
#[tactic(auto, using(crate::proofs::BuildLemmas::lowered_length))]
fn may_tell(word: &[u8]) -> bool
    ensures { result ≡ may_tell (str_to_ascii_lowercase word.now) }
{
    match word {
        [] => false,
        [first, behind @ ..] => {
            let first = first.to_ascii_lowercase();
            first == b':' || is_telling_byte(first) && is_telling_length(behind.len())
        }
    }
}

/// Whether a list shows nothing by its head, which changes nothing of the lists around.
fn is_plain(around: Around, head: TextWord<'_>) -> bool
    ensures { result ≡ is_plain around (the_word head.entry) }
{
    !around.metric && !may_tell(head.text)
}

// ---- words that show nothing

fn is_showing_length(behind: usize) -> bool
    ensures { result ≡ is_showing_length behind }
{
    matches!(behind, 0 | 1 | 5 | 6 | 7 | 9 | 10 | 12 | 15)
}

/// Whether a word that shows something may begin so, and have so many bytes behind.
fn is_showing(byte: u8, behind: usize) -> bool
    ensures { result ≡ is_showing byte behind }
{
    byte == b':'
        || behind == 0 && matches!(byte, b'/' | b'<' | b'=' | b'>')
        || behind == 1 && matches!(byte, b'a' | b'<' | b'>')
        || behind == 5 && matches!(byte, b'a' | b'e' | b'w')
        || behind == 7 && matches!(byte, b'd' | b'i' | b's')
        || behind == 9 && matches!(byte, b'h' | b's' | b't')
        || behind == 10 && byte == b'h'
        || behind == 12 && byte == b'a'
}

/// Whether a word may be one that shows something outside the metric, or `:metric`. Its length and
/// its first byte tell it.
#[tactic(auto, using(crate::proofs::BuildLemmas::lowered_length))]
fn may_show(word: &[u8]) -> bool
    ensures { result ≡ may_show (str_to_ascii_lowercase word.now) }
{
    match word {
        [] => false,
        [first, behind @ ..] => {
            is_showing_length(behind.len()) && is_showing(first.to_ascii_lowercase(), behind.len())
        }
    }
}

/// Whether a word shows nothing outside the metric, wherever it stands.
fn is_dull(word: &[u8]) -> bool
    ensures { result ≡ is_dull (str_to_ascii_lowercase word.now) }
{
    !may_show(word) || is(word, b"total-cost")
}

/// Whether a word stands in the text whole, and its length tells that it shows nothing.
fn has_dull_length(text: &[u8], at: u32, len: u32) -> bool
    ensures { result ≡ true → is_dull (str_to_ascii_lowercase (slice_of text.now at len)) ≡ true }
{
    if !is_dull_length(len) {
        return false;
    }
    at as usize + len as usize <= text.len()
}

fn is_dull_length(len: u32) -> bool
    ensures { result ≡ is_dull_length len }
{
    matches!(len, 3 | 4 | 5)
}

fn is_dull_node(text: &[u8], node: Node) -> bool
    ensures { result ≡ is_dull_node text.now node }
{
    match node {
        Node::Word { at, len } => {
            has_dull_length(text, at, len) || is_dull(slice_of(text, at as usize, len as usize))
        }
        Node::List { .. } => true,
    }
}

fn are_dull(text: &[u8], nodes: &[Node]) -> bool
    ensures { result ≡ list_all (is_dull_node text.now) nodes.now }
{
    for node in nodes {
        if !is_dull_node(text, *node) {
            return false;
        }
    }
    true
}

/// Whether a list is short, and all words in it show nothing. A long one is looked at part by part.
fn is_quiet(around: Around, list: View<'_, '_>) -> bool
    ensures { result ≡ true → IsQuiet around (elements (expression_of list.entry)) }
{
    if around.metric {
        return false;
    }
    let nodes = list.nodes_below();
    nodes.len() <= SHORT && are_dull(list.text(), nodes)
}

// ---- the whole

/// Whatever a list and the lists in it show.
#[cycle(below)]
fn below(
    around: Around,
    parts: Parts<'_, '_>,
    least: Option<ConstructFound>,
) -> Option<ConstructFound>
    ensures { FindsBelow around least (expressions_of parts.entry) result }
{
    let mut behind = parts;
    let Some(first) = behind.next() else {
        return least;
    };
    match word_of(first) {
        Some(head) => {
            if is_plain(around, head) {
                return all_in(with_no_head(around), behind, least);
            }
            let least = shown(around, head, behind, least);
            let least = least_if(is_called(head, b"total-time"), least, head);
            all_in(with_head(around, head.text), behind, least)
        }
        None => all_in(with_no_head(around), parts, least),
    }
}

/// Whatever is shown one after another.
#[cycle(below)]
fn all_in(
    around: Around,
    parts: Parts<'_, '_>,
    least: Option<ConstructFound>,
) -> Option<ConstructFound>
    ensures { FindsIn around least (expressions_of parts.entry) result }
{
    let mut left = parts;
    let mut least = least;
    while let Some(part) = left.next() {
        match word_of(part) {
            Some(word) => least = least_if(is_called(word, b"total-time"), least, word),
            None => {
                if !is_quiet(around, part) {
                    least = below(around, part.parts(), least);
                }
            }
        }
    }
    least
}

fn nothing_around() -> Around
    ensures { result ≡ the_around [] None }
{
    Around {
        declares: false,
        conditional: false,
        initial: false,
        metric: false,
        is_right_in_init: false,
    }
}

fn whole(root: View<'_, '_>) -> Option<ConstructFound>
    ensures { result ≡ least_with None (constructs [] None (expression_of root.entry)) }
{
    match word_of(root) {
        Some(word) => least_if(is_called(word, b"total-time"), None, word),
        None => below(nothing_around(), root.parts(), None),
    }
}

/// The construct of least offset that is left out by name in a whole expression.
#[tactic(auto, using(crate::proofs::ConstructLemmas::least_is))]
pub(crate) fn first_construct(role: Role, root: View<'_, '_>) -> Option<Refusal>
    ensures { result ≡ construct_in role (Some (expression_of root.entry)) }
{
    let ConstructFound { at, len } = whole(root)?;
    Some(Refusal {
        code: Code::Construct,
        pos: Pos { role, offset: at },
        len,
    })
}
