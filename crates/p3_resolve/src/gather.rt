//! What the trees of a task declare: the lists of types of their variables, and preferences.

ghost use Rattle.std.specs.Prelude.{◌≡◌, ◌++◌, [], flat_map, OnOk, IfOk};
ghost use Rattle.p3_task.specs.PreferenceNames.{named_at, named_in_domain, named_in_problem, named_in_goal, named_in_constraint};
ghost use Rattle.p3_resolve.specs.Words.{named_in};
ghost use Rattle.p3_resolve.specs.Listed.{lists_in, types_of, nothing, more};
ghost use Rattle.p3_resolve.specs.Listed.{formula_lists, effect_lists, goal_lists, constraint_lists, modal_lists, action_lists, domain_lists, problem_lists};

use p3_base::{Name, NoMemory, Operands};
use p3_task::{Action, Constraint, Domain, Effect, Formula, Modal, PreGoal, Problem, Ref, Typed};
use std::alloc::Global;
use std::marker::Model;

/// A name, and the offset of a preference that has it.
#[derive(Clone, Copy)]
pub(crate) struct Named<'t> {
    /// The offset.
    pub(crate) at: u32,
    /// The name.
    pub(crate) name: &'t Name,
}

/// The lists of types with which variables are declared, and the names of preferences, in the
/// order of the trees.
#[derive(Drop)]
pub(crate) struct Gathered<'t> {
    pub(crate) lists: Vec<&'t [Ref]>,
    pub(crate) named: Vec<Named<'t>>,
}

impl<'t> Model for Gathered<'t> {
    ghost use Rattle.p3_resolve.specs.Words.{named_in};
    ghost use Rattle.p3_resolve.specs.Listed.{Gathering, lists_in};

    ghost Value = { Gathering };

    ghost view = { λ gathered. record {
      lists = lists_in gathered.lists.items;
      named = named_in gathered.named.items;
    } };
}

/// The lists of variables more.
fn push_lists<'t>(found: &mut Vec<&'t [Ref]>, variables: &'t [Typed]) -> Result<(), NoMemory>
    ensures { OnOk result
        (lists_in found.new.items ≡ lists_in found.old.items ++ types_of variables.now) }
{
    for variable in variables {
        found.push(variable.types.items())?;
    }
    Ok(())
}

/// The name of a preference more, where it has one.
#[tactic(auto, using(crate::proofs::GatherLemmas::append_laws))]
fn push_name<'t>(found: &mut Vec<Named<'t>>, at: u32, name: &'t Option<Ref>) -> Result<(), NoMemory>
    ensures { OnOk result
        (named_in found.new.items ≡ named_in found.old.items ++ named_at at name.now) }
{
    match name {
        None => Ok(()),
        Some(name) => {
            found.push(Named {
                at,
                name: &name.name,
            })?;
            Ok(())
        }
    }
}

impl<'t> Gathered<'t> {
    /// Nothing yet.
    fn new(alloc: Global) -> Gathered<'t>
        ensures { result ≡ nothing }
    {
        Gathered {
            lists: Vec::new(alloc),
            named: Vec::new(alloc),
        }
    }

    /// The lists of variables more.
    #[tactic(auto, using(crate::proofs::GatherLemmas::append_laws), unfolding(crate::specs::Listed::more))]
    fn variables(&mut self, variables: &'t [Typed]) -> Result<(), NoMemory>
        ensures { OnOk result (self.new ≡ more (types_of variables.now) [] self.old) }
    {
        push_lists(&mut self.lists, variables)
    }

    /// A preference's name more, where it has one.
    #[tactic(auto, using(crate::proofs::GatherLemmas::append_laws), unfolding(crate::specs::Listed::more))]
    fn preference(&mut self, at: u32, name: &'t Option<Ref>) -> Result<(), NoMemory>
        ensures { OnOk result (self.new ≡ more [] (named_at at name.now) self.old) }
    {
        push_name(&mut self.named, at, name)
    }

    /// What a formula declares more.
    #[cycle(formulas)]
    #[tactic(auto, using(crate::proofs::GatherLemmas::formula_laws))]
    fn formula(&mut self, formula: &'t Formula) -> Result<(), NoMemory>
        ensures { OnOk result (self.new ≡ more (formula_lists formula.now) [] self.old) }
    {
        match formula {
            Formula::Atom { .. } => Ok(()),
            Formula::Equal(_, _) => Ok(()),
            Formula::And(parts) => self.formulas(parts.items()),
            Formula::Or(parts) => self.formulas(parts.items()),
            Formula::Not(part) => self.formula(part.get()),
            Formula::Imply(first, second) => {
                self.formula(first.get())?;
                self.formula(second.get())
            }
            Formula::Exists(variables, body) => {
                self.variables(variables.items())?;
                self.formula(body.get())
            }
            Formula::Forall(variables, body) => {
                self.variables(variables.items())?;
                self.formula(body.get())
            }
        }
    }

    /// What each formula declares more.
    #[cycle(formulas)]
    #[tactic(auto, using(crate::proofs::GatherLemmas::more_laws))]
    fn formulas(&mut self, parts: &'t [Formula]) -> Result<(), NoMemory>
        ensures { OnOk result (self.new ≡ more (flat_map formula_lists parts.now) [] self.old) }
    {
        for part in parts {
            self.formula(part)?;
        }
        Ok(())
    }

    /// What an effect declares more.
    #[cycle(effects)]
    #[tactic(auto, using(crate::proofs::GatherLemmas::effect_laws))]
    fn effect(&mut self, effect: &'t Effect) -> Result<(), NoMemory>
        ensures { OnOk result (self.new ≡ more (effect_lists effect.now) [] self.old) }
    {
        match effect {
            Effect::Add { .. } => Ok(()),
            Effect::Del { .. } => Ok(()),
            Effect::All(parts) => self.effects(parts.items()),
            Effect::Each(variables, body) => {
                self.variables(variables.items())?;
                self.effect(body.get())
            }
            Effect::If(condition, body) => {
                self.formula(condition)?;
                self.effect(body.get())
            }
            Effect::Cost(_, _) => Ok(()),
        }
    }

    /// What each effect declares more.
    #[cycle(effects)]
    #[tactic(auto, using(crate::proofs::GatherLemmas::more_laws))]
    fn effects(&mut self, parts: &'t [Effect]) -> Result<(), NoMemory>
        ensures { OnOk result (self.new ≡ more (flat_map effect_lists parts.now) [] self.old) }
    {
        for part in parts {
            self.effect(part)?;
        }
        Ok(())
    }

    /// What a precondition or a goal declares more.
    #[cycle(goals)]
    #[tactic(auto, using(crate::proofs::GatherLemmas::goal_laws))]
    fn goal(&mut self, goal: &'t PreGoal) -> Result<(), NoMemory>
        ensures { OnOk result (self.new
            ≡ more (goal_lists goal.now) (named_in_goal goal.now) self.old) }
    {
        match goal {
            PreGoal::Plain(body) => self.formula(body),
            PreGoal::Both(parts) => self.goals(parts.items()),
            PreGoal::Each(variables, body) => {
                self.variables(variables.items())?;
                self.goal(body.get())
            }
            PreGoal::Soft(pref) => {
                let pref = pref.get();
                self.preference(pref.at, &pref.name)?;
                self.formula(&pref.body)
            }
        }
    }

    /// What each precondition or goal declares more.
    #[cycle(goals)]
    #[tactic(auto, using(crate::proofs::GatherLemmas::more_laws))]
    fn goals(&mut self, parts: &'t [PreGoal]) -> Result<(), NoMemory>
        ensures { OnOk result (self.new
            ≡ more (flat_map goal_lists parts.now) (flat_map named_in_goal parts.now) self.old) }
    {
        for part in parts {
            self.goal(part)?;
        }
        Ok(())
    }

    /// What the formulas of a modal operator declare more.
    #[tactic(auto, using(crate::proofs::GatherLemmas::modal_laws))]
    fn modal(&mut self, modal: &'t Modal) -> Result<(), NoMemory>
        ensures { OnOk result (self.new ≡ more (modal_lists modal.now) [] self.old) }
    {
        match modal.operands() {
            Operands::One(_, formula) => self.formula(formula),
            Operands::Two(_, first, second) => {
                self.formula(first)?;
                self.formula(second)
            }
        }
    }

    /// What a constraint declares more.
    #[cycle(constraints)]
    #[tactic(auto, using(crate::proofs::GatherLemmas::constraint_laws))]
    fn constraint(&mut self, constraint: &'t Constraint) -> Result<(), NoMemory>
        ensures { OnOk result (self.new ≡ more
            (constraint_lists constraint.now) (named_in_constraint constraint.now) self.old) }
    {
        match constraint {
            Constraint::Both(parts) => self.constraints(parts.items()),
            Constraint::Each(variables, body) => {
                self.variables(variables.items())?;
                self.constraint(body.get())
            }
            Constraint::Single(modal) => self.modal(modal),
            Constraint::Soft { at, name, body } => {
                self.preference(*at, name)?;
                self.constraint(body.get())
            }
        }
    }

    /// What each constraint declares more.
    #[cycle(constraints)]
    #[tactic(auto, using(crate::proofs::GatherLemmas::more_laws))]
    fn constraints(&mut self, parts: &'t [Constraint]) -> Result<(), NoMemory>
        ensures { OnOk result (self.new ≡ more
            (flat_map constraint_lists parts.now)
            (flat_map named_in_constraint parts.now)
            self.old) }
    {
        for part in parts {
            self.constraint(part)?;
        }
        Ok(())
    }

    /// What an action declares more.
    #[tactic(auto, using(crate::proofs::GatherLemmas::action_laws))]
    fn action(&mut self, action: &'t Action) -> Result<(), NoMemory>
        ensures { OnOk result (self.new
            ≡ more (action_lists action.now) (named_in_goal action.now.pre.body) self.old) }
    {
        self.variables(action.params.items())?;
        self.goal(&action.pre.body)?;
        self.effect(&action.effect.body)
    }

    /// What each action declares more.
    #[tactic(auto, using(crate::proofs::GatherLemmas::more_laws))]
    fn actions(&mut self, actions: &'t [Action]) -> Result<(), NoMemory>
        ensures { OnOk result (self.new ≡ more
            (flat_map action_lists actions.now)
            (flat_map (λ action. named_in_goal action.pre.body) actions.now)
            self.old) }
    {
        for action in actions {
            self.action(action)?;
        }
        Ok(())
    }

    /// What the constraints and the actions of a domain declare.
    #[tactic(auto, using(crate::proofs::GatherLemmas::whole_laws))]
    pub(crate) fn of_domain(alloc: Global, domain: &'t Domain) -> Result<Gathered<'t>, NoMemory>
        ensures { IfOk result (λ gathered. gathered ≡ record {
          lists = domain_lists domain.now;
          named = named_in_domain domain.now;
        }) }
    {
        let mut gathered = Gathered::new(alloc);
        gathered.constraint(&domain.constraints.body)?;
        gathered.actions(domain.actions.items())?;
        Ok(gathered)
    }

    /// What the constraints and the goal of a problem declare.
    #[tactic(auto, using(crate::proofs::GatherLemmas::whole_laws))]
    pub(crate) fn of_problem(alloc: Global, problem: &'t Problem) -> Result<Gathered<'t>, NoMemory>
        ensures { IfOk result (λ gathered. gathered ≡ record {
          lists = problem_lists problem.now;
          named = named_in_problem problem.now;
        }) }
    {
        let mut gathered = Gathered::new(alloc);
        gathered.constraint(&problem.constraints.body)?;
        gathered.goal(&problem.goal.body)?;
        Ok(gathered)
    }
}
