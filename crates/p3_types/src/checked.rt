//! A task whose names are checked.

ghost use Rattle.std.specs.Prelude.{◌≡◌, ◌<◌, ◌≤◌, ◌^◌, length, slice_get, IsTrue};
ghost use Rattle.std.specs.Coded.{Coded-set};
ghost use Rattle.std.specs.Option.{option_copied};
ghost use Rattle.std.proofs.Props.{props};
ghost use Rattle.p3_task.specs.Costs.{cost_places as places_of_costs};
ghost use Rattle.p3_task.specs.Offences.{WellFormed};
ghost use Rattle.p3_task.specs.PreferenceNames.{ordered_names};
ghost use Rattle.p3_numbers.specs.Known.{Covers};
ghost use Rattle.p3_numbers.specs.Places.{IsNumbering};
ghost use Rattle.p3_numbers.specs.Slots.{name_at};
ghost use Rattle.p3_numbers.specs.Tasks.{HasNames, IsNumberedTask};
ghost use Rattle.p3_types.specs.FirstSteps.{counts_of, firsts_from};
ghost use Rattle.p3_types.specs.NameOrders.{action_names, IsNameOrder};
ghost use Rattle.p3_types.specs.Tables.{
  is_well_formed,
  task_over,
  greatest_value_of,
  greatest_values,
};
ghost use Rattle.p3_types.specs.Texts.{HasTexts, has_short_numbers};

use crate::parts::{CheckedParts, CostScale, Orders};
use p3_base::{Name, Side};
use p3_numbers::NumberedTask;
use p3_task::Task;

/// A well-formed task with its numbers.
#[derive(Drop)]
pub struct Checked {
    pub(crate) task: Task,
    side: Side,
    pub(crate) numbered: NumberedTask,
    /// The number of each action's first step, and behind them how many steps there are.
    pub(crate) first_steps: Vec<u32>,
    /// The places of the actions by rising names.
    pub(crate) actions_in_order: Vec<u32>,
    /// The numbers of the objects by rising names.
    pub(crate) objects_in_order: Vec<u32>,
    /// The decimal places of its costs.
    cost_places: u32,
    /// The greatest value of each function.
    greatest: Vec<u128>,
    pub ghost well_formed: { IsTrue (is_well_formed task) },
    pub ghost texts: { ∥ HasTexts side task ∥₁ },
    pub ghost short: { IsTrue (has_short_numbers side task) },
    pub ghost names: { HasNames task numbered.numbers } by { Prim.hlevel props },
    pub ghost numbering: { IsNumbering task numbered.numbers } by { Prim.hlevel props },
    pub ghost covers: { Covers task numbered.numbers } by { Prim.hlevel props },
    pub ghost trees: { numbered
        ≡ task_over numbered.numbers task } by { Coded-set numbered-code _ _ },
    pub ghost few: { length numbered.numbers.preferences < 2 ^ 32 },
    pub ghost firsts: { first_steps.items ≡ firsts_from 0 (counts_of numbered) },
    pub ghost action_order: { IsNameOrder
        (action_names task) actions_in_order.items } by { Prim.hlevel props },
    pub ghost object_order: { IsNameOrder
        numbered.numbers.objects objects_in_order.items } by { Prim.hlevel props },
    pub ghost places: { cost_places ≡ places_of_costs task },
    pub ghost values: { greatest.items ≡ greatest_values task numbered.numbers.functions },
}

impl Checked {
    ghost use Rattle.p3_types.specs.Parts.{ArePartsOf};

    /// The task with its parts.
    pub(crate) fn of(task: Task, side: Side, parts: CheckedParts) -> Checked
        requires well_formed { WellFormed task }
        requires texts { HasTexts side task }
        requires parts { ArePartsOf task parts }
        ensures task { result.task ≡ task }
        ensures side { result.side ≡ side }
    {
        let CheckedParts {
            numbered,
            first_steps,
            orders,
            costs,
        } = parts;
        let Orders { actions, objects } = orders;
        let CostScale { places, greatest } = costs;
        Checked {
            task,
            side,
            numbered,
            first_steps,
            actions_in_order: actions,
            objects_in_order: objects,
            cost_places: places,
            greatest,
        }
    }

    /// The task.
    pub fn task(&self) -> &Task
        ensures task { result.now ≡ self.now.task }
        ensures well_formed { WellFormed self.now.task }
        ensures texts { ∥ HasTexts self.now.side self.now.task ∥₁ }
        ensures short { IsTrue (has_short_numbers self.now.side self.now.task) }
    {
        &self.task
    }

    /// The side from which it was read.
    pub fn side(&self) -> Side
        ensures { result ≡ self.now.side }
    {
        self.side
    }

    /// The task with numbers in the place of names.
    pub fn numbered(&self) -> &NumberedTask
        ensures task { result.now ≡ self.now.numbered }
        ensures numbered { IsNumberedTask self.now.task self.now.numbered }
    {
        &self.numbered
    }

    /// How many preference names there are.
    pub fn names(&self) -> u32
        ensures { result ≡ length (ordered_names self.now.task) }
    {
        self.numbered.numbers.preferences.len() as u32
    }

    /// The preference name of a number, in the text order of the first preference that has each.
    pub fn name(&self, number: u32) -> Option<&Name>
        ensures { option_copied result ≡ slice_get (ordered_names self.now.task) number }
    {
        self.numbered.numbers.preferences.get(number as usize)
    }

    /// How many decimal places the task's costs have at most.
    #[tactic(auto, using(crate::proofs::CostLemmas::few_places))]
    pub fn cost_places(&self) -> u32
        ensures places { result ≡ places_of_costs self.now.task }
        ensures few { result ≤ 6 }
    {
        self.cost_places
    }

    /// The greatest value that the initial state gives to a function, in units, 0 where it gives
    /// none.
    pub fn greatest_value(&self, function: u32) -> u128
        requires { function < length self.now.numbered.numbers.functions }
        ensures { result
            ≡ greatest_value_of self.now.task
            (name_at self.now.numbered.numbers.functions function) }
    {
        self.greatest[function as usize]
    }
}
