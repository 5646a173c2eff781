//! Amounts and values of too many units.

ghost use Rattle.std.specs.Prelude.{◌≡◌, ◌≤◌, ◌∷◌, [], None, filter_map, fold};
ghost use Rattle.p3_task.specs.Costs.{
  amount_numeral,
  amount_numerals,
  cost_places,
  value_numerals,
};
ghost use Rattle.p3_task.specs.Refusals.Metric.{dear_at};
ghost use Rattle.p3_task.specs.Sides.{InDomain, InProblem};
ghost use Rattle.p3_limits.specs.Dear as dear;

use crate::refused_words::{domain_role, problem_role, refusal_at, with_least};
use p3_base::{Code, Refusal, Role, Side};
use p3_numbers::units_at;
use p3_task::{Action, Amount, Effect, Init, Numeral, Task};

/// So many units are too many.
const UNIT_BOUND: u128 = 1_000_000_000_000_000_000;

/// The bound on the units of the numbers of a text.
#[derive(Clone, Copy)]
struct UnitBound {
    /// The side of the text: the costs of a written task have no bound.
    side: Side,
    /// The text.
    role: Role,
    /// The decimal places of the task's costs.
    places: u32,
    ghost few: { places ≤ 6 },
}

impl UnitBound {
    /// Whether the number is an amount or a value of too many units.
    fn is_dear(self, numeral: Numeral) -> bool
        ensures { result ≡ dear.is_dear self.side self.places numeral }
    {
        match self.side {
            Side::Written => false,
            Side::Source => UNIT_BOUND <= units_at(&numeral, self.places),
        }
    }

    /// What was found, and the refusal of the number too where it has too many units.
    fn noted(self, found: Option<Refusal>, numeral: Numeral) -> Option<Refusal>
        ensures { result ≡ dear.noted self.side self.places self.role found numeral }
    {
        if self.is_dear(numeral) {
            let refusal = refusal_at(Code::CostTooLarge, self.role, numeral.at, numeral.len);
            with_least(found, refusal)
        } else {
            found
        }
    }

    /// What was found, and what an amount adds.
    fn noted_amount(self, found: Option<Refusal>, amount: &Amount) -> Option<Refusal>
        ensures { result ≡ fold (dear.noted self.side self.places self.role) found
            (filter_map amount_numeral (amount.now ∷ [])) }
    {
        match amount {
            Amount::Number(numeral) => self.noted(found, *numeral),
            Amount::Value { .. } => found,
        }
    }

    /// What was found, and what an effect adds.
    #[cycle(dear)]
    #[tactic(auto, using(crate::proofs::DearLaws::effect_laws))]
    fn noted_effect(self, found: Option<Refusal>, effect: &Effect) -> Option<Refusal>
        ensures { result ≡ dear.noted_effect self.side self.places self.role found effect.now }
    {
        match effect {
            Effect::Add { .. } => found,
            Effect::Del { .. } => found,
            Effect::All(parts) => self.noted_effects(found, parts.items()),
            Effect::Each(_, _) => found,
            Effect::If(_, _) => found,
            Effect::Cost(_, amount) => self.noted_amount(found, amount),
        }
    }

    /// What was found, and what the effects add.
    #[cycle(dear)]
    fn noted_effects(self, start: Option<Refusal>, effects: &[Effect]) -> Option<Refusal>
        ensures { result ≡
            fold (dear.noted_effect self.side self.places self.role) start effects.now }
    {
        let mut found = start;
        for effect in effects {
            found = self.noted_effect(found, effect);
        }
        found
    }

    /// What the actions show.
    fn noted_actions(self, actions: &[Action]) -> Option<Refusal>
        ensures { result ≡
            fold (dear.noted_action self.side self.places self.role) None actions.now }
    {
        let mut found = None;
        for action in actions {
            found = self.noted_effect(found, &action.effect.body);
        }
        found
    }

    /// What was found, and what an entry of the initial state adds.
    fn noted_entry(self, found: Option<Refusal>, entry: &Init) -> Option<Refusal>
        ensures { result ≡ dear.noted_entry self.side self.places self.role found entry.now }
    {
        match entry {
            Init::True { .. } => found,
            Init::False { .. } => found,
            Init::Value { number, .. } => self.noted(found, *number),
        }
    }

    /// What the entries of the initial state show.
    fn noted_entries(self, entries: &[Init]) -> Option<Refusal>
        ensures { result ≡
            fold (dear.noted_entry self.side self.places self.role) None entries.now }
    {
        let mut found = None;
        for entry in entries {
            found = self.noted_entry(found, entry);
        }
        found
    }
}

/// The refusal of the amount of least offset that has too many units, in a task whose costs have so
/// many decimal places.
#[tactic(auto, using(crate::proofs::DearLaws::amounts_are))]
pub fn dear_amount(side: Side, task: &Task, places: u32) -> Option<Refusal>
    requires few { places ≤ 6 }
    requires places { places ≡ cost_places task.now }
    ensures { result ≡ dear_at side task.now InDomain (amount_numerals task.now) }
{
    let bound = UnitBound {
        side,
        role: domain_role(side),
        places,
    };
    bound.noted_actions(task.domain.actions.items())
}

/// The refusal of the value of least offset that has too many units, in a task whose costs have so
/// many decimal places.
#[tactic(auto, using(crate::proofs::DearLaws::values_are))]
pub fn dear_value(side: Side, task: &Task, places: u32) -> Option<Refusal>
    requires few { places ≤ 6 }
    requires places { places ≡ cost_places task.now }
    ensures { result ≡ dear_at side task.now InProblem (value_numerals task.now) }
{
    let bound = UnitBound {
        side,
        role: problem_role(side),
        places,
    };
    bound.noted_entries(task.problem.init.items())
}
