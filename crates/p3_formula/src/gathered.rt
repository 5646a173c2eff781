//! The pieces of a conjunction or of a disjunction, each literal once.

ghost use Rattle.std.specs.Prelude.{◌≡◌, ◌++◌, ◌∷◌, ◌||◌, not, [], true, false, IfOk, OnOk};
ghost use Rattle.std.specs.List.{flat_map};
ghost use Rattle.p3_formula.specs.Literals.{said_of};
ghost use Rattle.p3_formula.specs.Simplified as plain;
ghost use Rattle.p3_formula.specs.Settled as made;

use crate::Form;
use crate::known::Known;
use crate::literals::Literal;
use crate::simpler::{constant, is_value, joined};
use p3_base::NoMemory;
use std::alloc::Global;

/// The most pieces that are compared with one another.
const MOST_PIECES: usize = 16;

/// What becomes of pieces that are put together.
enum Outcome {
    /// Each of them stays.
    Stay,
    /// They are a constant.
    Settle,
    /// A literal among them is repeated.
    Repeat,
}

/// The conjunction of the pieces, or else their disjunction, with each literal once.
pub(crate) fn gathered(alloc: Global, pieces: Vec<Form>, every: bool) -> Result<Form, NoMemory>
    ensures { IfOk result (λ simple. simple ≡ made.gathered every [] pieces.items) }
{
    if pieces.len() > MOST_PIECES {
        return gathered_once(alloc, pieces, every);
    }
    match compared(&pieces, every) {
        Outcome::Stay => Ok(joined(pieces, every)),
        Outcome::Settle => Ok(constant(!every)),
        Outcome::Repeat => gathered_once(alloc, pieces, every),
    }
}

/// Compares each of the pieces with those before it, as far as the first literal that is repeated.
fn compared(pieces: &[Form], every: bool) -> Outcome
    ensures stay { result ≡ Outcome.Stay
        → made.gathered every [] pieces.now ≡ plain.joined every pieces.now }
    ensures settle { result ≡ Outcome.Settle
        → made.gathered every [] pieces.now ≡ plain.constant (not every) }
{
    for (place, piece) in pieces.iter().enumerate() {
        if is_value(piece, !every) {
            return Outcome::Settle;
        }
        match met(&pieces[..place], piece) {
            Some(true) => return Outcome::Repeat,
            Some(false) => return Outcome::Settle,
            None => {}
        }
    }
    Outcome::Stay
}

/// Tells whether the piece is a literal among the forms, or else the negation of one.
fn met(kept: &[Form], piece: &Form) -> Option<bool>
    ensures repeats { made.repeats kept.now piece.now ≡ made.says result true }
    ensures clashes { made.clashes kept.now piece.now ≡ made.says result false }
{
    match own_literal(piece) {
        Some(literal) => is_as_said(said_by(kept, literal.atom), literal.holds),
        None => None,
    }
}

/// Tells whether that is said, or else its opposite.
fn is_as_said(said: Option<bool>, bit: bool) -> Option<bool>
    ensures same { made.says said bit ≡ made.says result true }
    ensures opposite { made.says said (not bit) ≡ made.says result false }
{
    match said {
        Some(one) => Some(one == bit),
        None => None,
    }
}

/// Looks through the forms for what the first literal of the atom says of it.
fn said_by(forms: &[Form], atom: usize) -> Option<bool>
    ensures { result ≡ said_of (flat_map made.own_literal forms.now) atom }
{
    for form in forms {
        if let Some(holds) = said_by_one(form, atom) {
            return Some(holds);
        }
    }
    None
}

/// Says of the atom what the form does, where it is a literal.
fn said_by_one(form: &Form, atom: usize) -> Option<bool>
    ensures { result ≡ said_of (made.own_literal form.now) atom }
{
    match own_literal(form) {
        Some(literal) => said_by_literal(literal, atom),
        None => None,
    }
}

/// Says of the atom what the literal does.
fn said_by_literal(literal: Literal, atom: usize) -> Option<bool>
    ensures { result ≡ said_of (literal ∷ []) atom }
{
    if atom == literal.atom {
        return Some(literal.holds);
    }
    None
}

/// Makes the same as `gathered`, and notes the literals as they come.
fn gathered_once(alloc: Global, pieces: Vec<Form>, every: bool) -> Result<Form, NoMemory>
    ensures { IfOk result (λ simple. simple ≡ made.gathered every [] pieces.items) }
{
    let mut kept = Vec::with_capacity(alloc, pieces.len())?;
    let mut seen = Known::new(alloc);
    for piece in pieces {
        if closes(&seen, &piece, every) {
            return Ok(constant(!every));
        }
        keep_once(&mut kept, &mut seen, piece)?;
    }
    Ok(joined(kept, every))
}

/// Whether the piece settles the whole beside the literals that were seen.
fn closes(seen: &Known, piece: &Form, every: bool) -> bool
    ensures { result ≡ (plain.is_value (not every) piece.now
        || made.clashes_one seen.now (made.own_literal piece.now)) }
{
    is_value(piece, !every) || clashes(seen, piece)
}

/// The piece stands behind the others, where it is no literal that was seen.
fn keep_once(kept: &mut Vec<Form>, seen: &mut Known, piece: Form) -> Result<(), NoMemory>
    requires stand { seen.old ≡ flat_map made.own_literal kept.old.items }
    requires other { made.clashes kept.old.items piece ≡ false }
    ensures kept { OnOk result (kept.new.items ≡ made.kept_once kept.old.items piece) }
    ensures seen { OnOk result (seen.new ≡ flat_map made.own_literal kept.new.items) }
{
    if repeats(seen, &piece) {
        drop(piece);
        return Ok(());
    }
    see(seen, &piece)?;
    kept.push(piece)?;
    Ok(())
}

/// The literal that the piece is, where it is one, stands behind the others.
#[tactic(auto, using(crate::proofs::SettledLaws::see_laws))]
fn see(seen: &mut Known, piece: &Form) -> Result<(), NoMemory>
    requires other { made.clashes_one seen.old (made.own_literal piece.now) ≡ false }
    requires new { made.repeats_one seen.old (made.own_literal piece.now) ≡ false }
    ensures { OnOk result (seen.new ≡ seen.old ++ made.own_literal piece.now) }
{
    match own_literal(piece) {
        Some(literal) => seen.note(literal),
        None => Ok(()),
    }
}

/// Whether the negation of the piece is a literal that was seen.
fn clashes(seen: &Known, piece: &Form) -> bool
    ensures { result ≡ made.clashes_one seen.now (made.own_literal piece.now) }
{
    match own_literal(piece) {
        Some(literal) => says(seen.of(literal.atom), !literal.holds),
        None => false,
    }
}

/// Whether the piece is a literal that was seen.
fn repeats(seen: &Known, piece: &Form) -> bool
    ensures { result ≡ made.repeats_one seen.now (made.own_literal piece.now) }
{
    match own_literal(piece) {
        Some(literal) => says(seen.of(literal.atom), literal.holds),
        None => false,
    }
}

/// Whether that is said.
fn says(said: Option<bool>, bit: bool) -> bool
    ensures { result ≡ made.says said bit }
{
    match said {
        Some(one) => one == bit,
        None => false,
    }
}

/// The literal that the form is, where it is one.
#[tactic(auto, using(crate::proofs::SettledLaws::own_laws))]
pub(crate) fn own_literal(form: &Form) -> Option<Literal>
    ensures { made.own_literal form.now ≡ made.listed result }
{
    match form {
        Form::Atom(atom) => Some(Literal {
            atom: *atom,
            holds: true,
        }),
        Form::Not(part) => denied_literal(part.get()),
        Form::True | Form::False | Form::And(_) | Form::Or(_) => None,
    }
}

/// The literal that the negation of the form is, where it is one.
fn denied_literal(form: &Form) -> Option<Literal>
    ensures { made.denied_literal form.now ≡ made.listed result }
{
    match form {
        Form::Atom(atom) => Some(Literal {
            atom: *atom,
            holds: false,
        }),
        Form::True | Form::False | Form::Not(_) | Form::And(_) | Form::Or(_) => None,
    }
}
