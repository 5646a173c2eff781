//! Headings whose literals are not known yet.

ghost use Rattle.std.specs.Prelude.{◌≡◌, map, IfOk};
ghost use Rattle.p3_scenes.specs.Lent.{lent_operator, lent_words};
ghost use Rattle.p3_scenes.specs.Seen.{seen};
ghost use Rattle.p3_reasons.specs.Evidences.{evidence_of};
ghost use Rattle.p3_unmet.specs.Sketches.{
  inquiry_of,
  is_nowhere,
  operator_sketch,
  seen_draft,
  seen_inquiry,
  subject_of,
};

use p3_accounts::{Binding, OperatorKind, ShownState, Spot, Subject};
use p3_base::{List, NoMemory, Showing};
use p3_reasons::{Evidence, Operand, evidence_in};
use p3_scenes::{Asked, Bindings, OperatorScene};
use std::alloc::Global;

/// What is asked about a state, to be shown there.
#[derive(Clone, Copy)]
pub(crate) struct Inquiry<'t> {
    /// The state, counted from 0.
    pub(crate) state: u32,
    /// Which formula of an operator over two; none where there is one alone.
    pub(crate) operand: Option<Operand>,
    /// What is asked.
    pub(crate) asked: Asked<'t>,
}

/// What a heading is of, without what its variables mean.
#[derive(Clone, Copy)]
pub(crate) enum Concern {
    /// The goal.
    Goal,
    /// An operator of a hard constraint.
    Constraint {
        /// Its number.
        number: u32,
        /// Which operator it is.
        operator: OperatorKind,
    },
    /// An operator of a preference.
    Preference {
        /// The number of the preference's name, where it has one.
        name: Option<u32>,
        /// Which operator it is.
        operator: OperatorKind,
    },
    /// A preference of the precondition of a step.
    StepPreference {
        /// The number of its name, where it has one.
        name: Option<u32>,
        /// The step, counted from 1.
        step: u32,
    },
}

/// A heading whose literals are not known yet, with what is asked to know them.
#[derive(Drop)]
pub(crate) struct Draft<'t> {
    /// Where it stands, where that is known.
    pub(crate) spot: Option<Spot>,
    /// What it is of.
    pub(crate) concern: Concern,
    /// The variables in scope and their objects.
    pub(crate) bindings: Bindings<'t>,
    /// Whether it shows in no state.
    pub(crate) nowhere: bool,
    /// What is asked.
    pub(crate) inquiries: List<Inquiry<'t>>,
}

impl Concern {
    /// Gives what a heading is of, with what its variables mean.
    pub(crate) fn subject(self, bindings: List<Binding>) -> Subject
        ensures { result ≡ subject_of self bindings }
    {
        match self {
            Concern::Goal => Subject::Goal,
            Concern::Constraint { number, operator } => Subject::Constraint {
                number,
                operator,
                bindings,
            },
            Concern::Preference { name, operator } => Subject::Preference {
                name,
                operator,
                bindings,
            },
            Concern::StepPreference { name, step } => Subject::StepPreference {
                name,
                step,
                bindings,
            },
        }
    }
}

/// Tells whether it is shown that something holds in no state.
fn shows_nowhere(showing: Showing) -> bool
    ensures { result ≡ is_nowhere showing }
{
    match showing {
        Showing::Holds => false,
        Showing::HoldsAt(_) => false,
        Showing::HoldsNowhere => true,
        Showing::FailsAt(_) => false,
        Showing::Again { .. } => false,
    }
}

/// Gives the same variables and objects once more.
pub(crate) fn copied<'t>(alloc: Global, bindings: &Bindings<'t>) -> Result<Bindings<'t>, NoMemory>
    ensures variables { IfOk result
        (λ copy. lent_words copy.variables ≡ lent_words bindings.now.variables) }
    ensures objects { IfOk result (λ copy. copy.objects ≡ bindings.now.objects) }
{
    let variables = List::from(Vec::from_slice(alloc, bindings.variables.items())?);
    let objects = List::from(Vec::from_slice(alloc, bindings.objects.items())?);
    Ok(Bindings { variables, objects })
}

/// Asks for a formula of an operator in the state in which it shows.
fn inquiry_by<'t>(alloc: Global, scene: &OperatorScene<'t>, evidence: Evidence) -> Inquiry<'t>
    ensures { seen_inquiry result ≡ inquiry_of (lent_operator scene.now.operator) evidence }
{
    let kind = OperatorKind::of(&scene.operator);
    let shown = ShownState::by(kind, evidence, List::new(alloc));
    Inquiry {
        state: shown.state,
        operand: shown.operand,
        asked: Asked::Condition(scene.condition(evidence.operand)),
    }
}

/// Asks for each formula of an operator that is evident.
fn inquiries<'t>(
    alloc: Global,
    scene: &OperatorScene<'t>,
    evident: &[Evidence],
) -> Result<List<Inquiry<'t>>, NoMemory>
    ensures { IfOk result (λ list. map seen_inquiry list
        ≡ map (inquiry_of (lent_operator scene.now.operator)) evident.now) }
{
    let mut list = List::new(alloc);
    for evidence in evident {
        list.push(inquiry_by(alloc, scene, *evidence))?;
    }
    Ok(list)
}

/// Asks for each formula of an operator that shows it.
fn operator_inquiries<'t>(
    alloc: Global,
    scene: &OperatorScene<'t>,
    showing: Showing,
) -> Result<List<Inquiry<'t>>, NoMemory>
    ensures { IfOk result (λ list. map seen_inquiry list
        ≡ map (inquiry_of (lent_operator scene.now.operator))
        (evidence_of (lent_operator scene.now.operator) showing)) }
{
    let evident = evidence_in(alloc, &scene.operator, showing)?;
    inquiries(alloc, scene, evident.as_slice())
}

/// Drafts the heading of an operator.
pub(crate) fn operator_draft<'t>(
    alloc: Global,
    concern: Concern,
    spot: Option<Spot>,
    scene: &OperatorScene<'t>,
    showing: Showing,
) -> Result<Draft<'t>, NoMemory>
    ensures { IfOk result (λ draft. seen_draft draft
        ≡ operator_sketch concern spot (seen scene.now) showing) }
{
    let bindings = copied(alloc, &scene.bindings)?;
    let inquiries = operator_inquiries(alloc, scene, showing)?;
    Ok(Draft {
        spot,
        concern,
        bindings,
        nowhere: shows_nowhere(showing),
        inquiries,
    })
}
