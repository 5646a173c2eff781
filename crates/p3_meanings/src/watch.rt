//! What the atoms of monitors watch.

ghost use Rattle.std.specs.Prelude.{◌≡◌, ◌++◌, IfOk, OnOk, codes, map};
ghost use Rattle.p3_numbers.specs.Places.{environment_of};
ghost use Rattle.p3_scenes.specs.Lent.{lent_words};
ghost use Rattle.p3_scenes.specs.Seen.{seen};
ghost use Rattle.p3_accounts.specs.Operators.{operator_word};
ghost use Rattle.p3_accounts.specs.Subjects.{bindings_text, subject_text};
ghost use Rattle.p3_accounts.specs.Vocabularies.{Vocabulary, vocabulary};
ghost use Rattle.p3_meanings.specs.Environments.{environment_text};
ghost use Rattle.p3_meanings.specs.Heard.{heard, of_watched, scene_watches};
ghost use Rattle.p3_meanings.specs.Monitors as monitors;

use crate::telling::Telling;
use crate::unnumbered::Unnumbered;
use p3_accounts::{Binding, Meant, OperatorKind, Spot, Subject};
use p3_base::{Binary, List, NoMemory, Unary};
use p3_scenes::{Bindings, OperatorScene};
use p3_unmet::bindings_of;

/// Of what an operator that is watched is.
#[derive(Clone, Copy, Debug)]
pub(crate) enum Watched {
    /// A hard constraint by its number.
    Constraint(u32),
    /// A preference by the number of its name, where it has one.
    Preference(Option<u32>),
}

/// How many atoms watch an operator.
fn watch_count(operator: OperatorKind) -> usize
    ensures { result ≡ monitors.watch_count operator }
{
    match operator {
        OperatorKind::One(Unary::AtEnd) => 0,
        OperatorKind::One(Unary::AtMostOnce) | OperatorKind::Two(Binary::SometimeBefore) => 2,
        OperatorKind::One(Unary::Always | Unary::Sometime)
        | OperatorKind::Two(Binary::SometimeAfter) => 1,
    }
}

/// Tells what is watched.
fn subject_of(
    telling: &Telling<'_>,
    of: Watched,
    operator: OperatorKind,
    bindings: &Bindings<'_>,
) -> Result<Subject, NoMemory>
    ensures { IfOk result (λ subject. subject_text (vocabulary telling.now.terms.now) subject
        ≡ of_watched (vocabulary telling.now.terms.now) of (operator_word operator
        ++ environment_text (environment_of telling.now.terms.now.numbers.now
        (lent_words bindings.now.variables) bindings.now.objects))) }
{
    let bindings = bindings_of(telling.alloc, bindings)?;
    Ok(subject_with(of, operator, bindings))
}

/// Tells what is watched, by what its variables mean.
fn subject_with(of: Watched, operator: OperatorKind, bindings: List<Binding>) -> Subject
    ensures { (V : Vocabulary) → subject_text V result
        ≡ of_watched V of (operator_word operator ++ bindings_text V bindings) }
{
    match of {
        Watched::Constraint(number) => Subject::Constraint {
            number,
            operator,
            bindings,
        },
        Watched::Preference(name) => Subject::Preference {
            name,
            operator,
            bindings,
        },
    }
}

/// Puts the atoms that watch an operator behind those found.
pub(crate) fn push_watches(
    telling: &Telling<'_>,
    of: Watched,
    spot: Option<Spot>,
    scene: &OperatorScene<'_>,
    found: &mut List<Unnumbered>,
) -> Result<(), NoMemory>
    ensures { OnOk result (map (heard (vocabulary telling.now.terms.now)) found.new
        ≡ map (heard (vocabulary telling.now.terms.now)) found.old
        ++ scene_watches (vocabulary telling.now.terms.now) of spot (seen scene.now)) }
{
    let operator = OperatorKind::of(&scene.operator);
    for _ in 0..watch_count(operator) {
        let subject = subject_of(telling, of, operator, &scene.bindings)?;
        found.push(Unnumbered {
            spot,
            of: Meant::Monitor(subject),
        })?;
    }
    Ok(())
}
