//! The first word of a formula in its text.

ghost use Rattle.std.specs.Prelude.{◌≡◌, map};
ghost use Rattle.p3_scenes.specs.FirstWords.{
  first_in,
  first_of,
  first_word,
  first_word_of,
  term_at as at_term,
  first_variable as at_variable,
};

use p3_base::Operator;
use p3_task::{Formula, Modal, Term, Typed};

/// The offset of a term.
fn term_at(term: &Term) -> u32
    ensures { result ≡ at_term term.now }
{
    match term {
        Term::Var(variable) => variable.at,
        Term::Const(object) => object.at,
    }
}

/// The offset of the first of the variables.
fn first_variable(variables: &[Typed]) -> Option<u32>
    ensures { result ≡ at_variable variables.now }
{
    match variables.first() {
        Some(variable) => Some(variable.name.at),
        None => None,
    }
}

/// The first of two, where there is one, and else the second.
fn either(first: Option<u32>, second: Option<u32>) -> Option<u32>
    ensures { result ≡ first_of first second }
{
    match first {
        Some(at) => Some(at),
        None => second,
    }
}

/// The offset of the first word that stands in a formula, where there is one.
#[cycle(words)]
#[tactic(auto, using(crate::proofs::FirstWordLemmas::word_laws))]
pub(crate) fn formula_word(formula: &Formula) -> Option<u32>
    ensures { result ≡ first_word formula.now }
{
    match formula {
        Formula::Atom { pred, .. } => Some(pred.at),
        Formula::Equal(left, _) => Some(term_at(left.get())),
        Formula::And(parts) => parts_word(parts.items()),
        Formula::Or(parts) => parts_word(parts.items()),
        Formula::Not(part) => formula_word(part.get()),
        Formula::Imply(first, second) => {
            let word = formula_word(first.get());
            either(word, formula_word(second.get()))
        }
        Formula::Exists(variables, body) => {
            let word = first_variable(variables.items());
            either(word, formula_word(body.get()))
        }
        Formula::Forall(variables, body) => {
            let word = first_variable(variables.items());
            either(word, formula_word(body.get()))
        }
    }
}

/// The offset of the first word that stands in the formulas, where there is one.
#[cycle(words)]
fn parts_word(parts: &[Formula]) -> Option<u32>
    ensures { result ≡ first_in (map first_word parts.now) }
{
    for part in parts {
        if let Some(at) = formula_word(part) {
            return Some(at);
        }
    }
    None
}

/// The offset of the first word that stands in the formulas of an operator, where there is one.
pub(crate) fn modal_word(modal: &Modal) -> Option<u32>
    ensures { result ≡ first_word_of modal.now }
{
    match modal {
        Operator::AtEnd(formula) => formula_word(formula),
        Operator::Always(formula) => formula_word(formula),
        Operator::Sometime(formula) => formula_word(formula),
        Operator::AtMostOnce(formula) => formula_word(formula),
        Operator::SometimeAfter(first, second) => {
            let word = formula_word(first);
            either(word, formula_word(second))
        }
        Operator::SometimeBefore(first, second) => {
            let word = formula_word(first);
            either(word, formula_word(second))
        }
    }
}
