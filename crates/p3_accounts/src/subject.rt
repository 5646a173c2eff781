//! What the headings of an account are of.

ghost use Rattle.std.specs.Prelude.{◌≡◌, ◌≤◌, OnErr, OnOk};
ghost use Rattle.p3_base.specs.Outside.{IsPartlyPut, IsPut, Rose};
ghost use Rattle.p3_tree.specs.Reports.Lines.{line};
ghost use Rattle.p3_accounts.specs.Subjects.{
  bindings_text,
  equation_text,
  fault_text,
  said_text,
  subject_text,
};
ghost use Rattle.p3_accounts.specs.Vocabularies.{vocabulary};

use crate::item::{Item, Printed, put_all, put_items};
use crate::operator::OperatorKind;
use crate::terms::Terms;
use crate::words::name_of;
use p3_base::{List, Name, Sink, SinkFailed};
use p3_reports::{Piece, put_pieces};
use p3_task::Step;

/// A variable that means an object.
#[derive(Debug, Drop)]
pub struct Binding {
    /// The variable.
    pub variable: Name,
    /// The number of the object.
    pub object: u32,
}

/// Why a step does not fit. Arguments are counted from 1.
#[derive(Debug, Drop)]
pub enum StepFault {
    /// No action has its name.
    UnknownAction,
    /// Its action has so many parameters, and it has more arguments or fewer.
    Count(u32),
    /// No object has the name of this argument.
    NoObject(u32),
    /// The object of this argument is of none of the types of its parameter.
    NoType {
        /// The argument.
        argument: u32,
        /// The variable of the parameter.
        parameter: Name,
    },
    /// The initial state gives no value to a function at objects: the number of the function, and
    /// then those of the objects.
    NoValue(List<u32>),
    /// The precondition does not hold.
    Precondition,
}

/// What a heading of an account is of. Steps are counted from 1, constraints from 0; preferences
/// have the numbers of their names. Bindings stand in the order of the text.
#[derive(Debug, Drop)]
pub enum Subject {
    /// A step that does not fit.
    Step {
        /// Its number.
        number: u32,
        /// Its words, as the plan has them.
        words: Step,
        /// Why it does not fit.
        fault: StepFault,
    },
    /// The goal, which does not hold.
    Goal,
    /// An operator of a hard constraint, which is not satisfied.
    Constraint {
        /// Its number.
        number: u32,
        /// Which operator it is.
        operator: OperatorKind,
        /// What its variables mean.
        bindings: List<Binding>,
    },
    /// An operator of a preference, which is not satisfied.
    Preference {
        /// The number of the preference's name, where it has one.
        name: Option<u32>,
        /// Which operator it is.
        operator: OperatorKind,
        /// What its variables mean.
        bindings: List<Binding>,
    },
    /// A preference of the precondition of a step, which is not satisfied.
    StepPreference {
        /// The number of its name, where it has one.
        name: Option<u32>,
        /// The step.
        step: u32,
        /// What its variables mean.
        bindings: List<Binding>,
    },
}

impl Printed for Binding {
    ghost use Rattle.p3_accounts.specs.Subjects.{binding_text};

    ghost text = { binding_text };

    fn put<S: Sink>(&self, terms: &Terms<'_>, out: &mut S) -> Result<(), SinkFailed> {
        let object = name_of(&terms.numbers.objects, self.object);
        put_equation(self.variable.bytes(), object, out)
    }
}

/// Puts what a variable means, behind a comma.
fn put_equation<'x, S: Sink>(
    variable: &'x [u8],
    object: &'x [u8],
    out: &mut S,
) -> Result<(), SinkFailed>
    ensures ok { OnOk result (IsPut (equation_text variable.now object.now)
        (S.seen out.old).written (S.seen out.new).written) }
    ensures partly { OnErr result (IsPartlyPut (equation_text variable.now object.now)
        (S.seen out.old).written (S.seen out.new).written) }
    ensures failed { OnErr result (Rose (S.seen out.old).faults (S.seen out.new).faults) }
    ensures faults_grow { (S.seen out.old).faults ≤ (S.seen out.new).faults }
{
    put_pieces(
        &[
            Piece::Text(", "),
            Piece::Bytes(variable),
            Piece::Text(" = "),
            Piece::Bytes(object),
        ],
        out,
    )
}

/// Puts what variables mean.
pub(crate) fn put_bindings<S: Sink>(
    bindings: &List<Binding>,
    terms: &Terms<'_>,
    out: &mut S,
) -> Result<(), SinkFailed>
    ensures ok { OnOk result (IsPut (bindings_text (vocabulary terms.now) bindings.now)
        (S.seen out.old).written (S.seen out.new).written) }
    ensures partly { OnErr result (IsPartlyPut (bindings_text (vocabulary terms.now) bindings.now)
        (S.seen out.old).written (S.seen out.new).written) }
    ensures failed { OnErr result (Rose (S.seen out.old).faults (S.seen out.new).faults) }
    ensures faults_grow { (S.seen out.old).faults ≤ (S.seen out.new).faults }
{
    put_all(bindings.items(), terms, out)
}

/// Puts what a heading is of.
pub(crate) fn put_subject<S: Sink>(
    subject: &Subject,
    terms: &Terms<'_>,
    out: &mut S,
) -> Result<(), SinkFailed>
    ensures ok { OnOk result (IsPut (subject_text (vocabulary terms.now) subject.now)
        (S.seen out.old).written (S.seen out.new).written) }
    ensures partly { OnErr result (IsPartlyPut (subject_text (vocabulary terms.now) subject.now)
        (S.seen out.old).written (S.seen out.new).written) }
    ensures failed { OnErr result (Rose (S.seen out.old).faults (S.seen out.new).faults) }
    ensures faults_grow { (S.seen out.old).faults ≤ (S.seen out.new).faults }
{
    match subject {
        Subject::Step { number, words, .. } => put_items(
            &[
                Item::Text("step "),
                Item::Number(*number),
                Item::Text(" "),
                Item::Words(words),
            ],
            terms,
            out,
        ),
        Subject::Goal => put_items(&[Item::Text("the goal")], terms, out),
        Subject::Constraint {
            number,
            operator,
            bindings,
        } => put_items(
            &[
                Item::Text("constraint "),
                Item::Number(*number),
                Item::Text(", "),
                Item::Operator(*operator),
                Item::Bindings(bindings),
            ],
            terms,
            out,
        ),
        Subject::Preference {
            name,
            operator,
            bindings,
        } => put_items(
            &[
                Item::Text("preference "),
                Item::Preference(*name),
                Item::Text(", "),
                Item::Operator(*operator),
                Item::Bindings(bindings),
            ],
            terms,
            out,
        ),
        Subject::StepPreference {
            name,
            step,
            bindings,
        } => put_items(
            &[
                Item::Text("preference "),
                Item::Preference(*name),
                Item::Text(" of step "),
                Item::Number(*step),
                Item::Text(" "),
                Item::Step(*step),
                Item::Bindings(bindings),
            ],
            terms,
            out,
        ),
    }
}

/// Puts what is said of it, and ends the line.
pub(crate) fn put_said<S: Sink>(
    subject: &Subject,
    terms: &Terms<'_>,
    out: &mut S,
) -> Result<(), SinkFailed>
    ensures ok { OnOk result (IsPut (line (said_text (vocabulary terms.now) subject.now))
        (S.seen out.old).written (S.seen out.new).written) }
    ensures partly { OnErr result (IsPartlyPut (line (said_text (vocabulary terms.now) subject.now))
        (S.seen out.old).written (S.seen out.new).written) }
    ensures failed { OnErr result (Rose (S.seen out.old).faults (S.seen out.new).faults) }
    ensures faults_grow { (S.seen out.old).faults ≤ (S.seen out.new).faults }
{
    match subject {
        Subject::Step { words, fault, .. } => put_step_fault(words, fault, terms, out),
        Subject::Goal => put_items(&[Item::Text(" does not hold\n")], terms, out),
        Subject::Constraint { .. } | Subject::Preference { .. } | Subject::StepPreference { .. } =>
            { put_items(&[Item::Text(": not satisfied\n")], terms, out) }
    }
}

/// Puts why a step does not fit, and ends the line.
fn put_step_fault<'x, S: Sink>(
    words: &'x Step,
    fault: &'x StepFault,
    terms: &Terms<'_>,
    out: &mut S,
) -> Result<(), SinkFailed>
    ensures ok { OnOk result (IsPut (line (fault_text (vocabulary terms.now) words.now fault.now))
        (S.seen out.old).written (S.seen out.new).written) }
    ensures partly { OnErr result
        (IsPartlyPut (line (fault_text (vocabulary terms.now) words.now fault.now))
        (S.seen out.old).written (S.seen out.new).written) }
    ensures failed { OnErr result (Rose (S.seen out.old).faults (S.seen out.new).faults) }
    ensures faults_grow { (S.seen out.old).faults ≤ (S.seen out.new).faults }
{
    match fault {
        StepFault::UnknownAction => put_items(
            &[
                Item::Text(": no action is called "),
                Item::Name(&words.action),
                Item::Text("\n"),
            ],
            terms,
            out,
        ),
        StepFault::Count(parameters) => put_items(
            &[
                Item::Text(": "),
                Item::Arguments(words),
                Item::Text(" for "),
                Item::Parameters(*parameters),
                Item::Text("\n"),
            ],
            terms,
            out,
        ),
        StepFault::NoObject(argument) => put_items(
            &[
                Item::Text(": argument "),
                Item::Number(*argument),
                Item::Text(", "),
                Item::Argument(words, *argument),
                Item::Text(": no object has this name"),
                Item::Text("\n"),
            ],
            terms,
            out,
        ),
        StepFault::NoType {
            argument,
            parameter,
        } => put_items(
            &[
                Item::Text(": argument "),
                Item::Number(*argument),
                Item::Text(", "),
                Item::Argument(words, *argument),
                Item::Text(": of none of the types of "),
                Item::Name(parameter),
                Item::Text("\n"),
            ],
            terms,
            out,
        ),
        StepFault::NoValue(value) => put_items(
            &[
                Item::Text(": "),
                Item::Value(value),
                Item::Text(" has no value"),
                Item::Text("\n"),
            ],
            terms,
            out,
        ),
        StepFault::Precondition => put_items(
            &[Item::Text(": the precondition does not hold\n")],
            terms,
            out,
        ),
    }
}
