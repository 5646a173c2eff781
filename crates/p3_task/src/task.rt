//! Domains, problems, tasks and plans.

use crate::{Constraint, Effect, Metric, Numeral, PreGoal, Ref, Term, Typed};
use p3_base::{List, Name};

/// A predicate or a function with its parameters.
#[derive(Debug, Drop)]
pub struct Header {
    /// Its name.
    pub name: Ref,
    /// Its parameters.
    pub params: List<Typed>,
}

/// A type, declared to be below another.
#[derive(Debug, Drop)]
pub struct Kind {
    /// The type.
    pub name: Ref,
    /// The type above it, where one is given.
    pub parent: Option<Ref>,
}

/// A part with the offset of its keyword.
#[derive(Debug, Drop)]
pub struct Part<T> {
    /// The offset.
    pub at: u32,
    /// What stands there.
    pub body: T,
}

/// An action. An absent part has the offset of the action's name.
#[derive(Debug, Drop)]
pub struct Action {
    /// Its name.
    pub name: Ref,
    /// Its parameters.
    pub params: List<Typed>,
    /// Its precondition.
    pub pre: Part<PreGoal>,
    /// Its effect.
    pub effect: Part<Effect>,
}

/// The domain half of a task. Absent constraints are `Both` of nothing at offset 0.
#[derive(Debug, Drop)]
pub struct Domain {
    /// Its name.
    pub name: Ref,
    /// The declared types.
    pub kinds: List<Kind>,
    /// The constants.
    pub constants: List<Typed>,
    /// The predicates.
    pub predicates: List<Header>,
    /// The functions.
    pub functions: List<Header>,
    /// The constraints.
    pub constraints: Part<Constraint>,
    /// The actions.
    pub actions: List<Action>,
}

/// An entry of the initial state.
#[derive(Debug, Drop)]
pub enum Init {
    /// An atom that is true.
    True {
        /// The predicate.
        pred: Ref,
        /// The arguments.
        args: List<Term>,
    },
    /// An atom that is said to be false, which has no effect.
    False {
        /// The predicate.
        pred: Ref,
        /// The arguments.
        args: List<Term>,
    },
    /// The value of a static function, or of the total cost.
    Value {
        /// The function.
        function: Ref,
        /// The arguments.
        args: List<Term>,
        /// The value.
        number: Numeral,
    },
}

/// The problem half of a task.
#[derive(Debug, Drop)]
pub struct Problem {
    /// Its name.
    pub name: Ref,
    /// The name of the domain, which is not compared.
    pub domain: Ref,
    /// The objects.
    pub objects: List<Typed>,
    /// The initial state.
    pub init: List<Init>,
    /// The goal.
    pub goal: Part<PreGoal>,
    /// The constraints.
    pub constraints: Part<Constraint>,
    /// The metric, where one is given.
    pub metric: Option<Metric>,
}

/// A planning task.
#[derive(Debug, Drop)]
pub struct Task {
    /// What the actions are.
    pub domain: Domain,
    /// Where they begin and what they are for.
    pub problem: Problem,
}

/// A step of a plan: an action and the objects of its parameters.
#[derive(Debug, Drop)]
pub struct Step {
    /// The action.
    pub action: Name,
    /// The objects.
    pub args: List<Name>,
}

/// A plan: steps in order.
pub type Plan = List<Step>;
