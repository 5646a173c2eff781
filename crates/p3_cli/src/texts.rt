//! The texts that a command has read, those that it makes, and the ending that says a refusal of
//! what it read.

ghost use Rattle.std.specs.Prelude.{◌≡◌, ◌≤◌, length};
ghost use Rattle.p3_base.specs.declared.refusal.Side.TheVariants.{Source, Written};
ghost use Rattle.p3_task.specs.Sides.{byte_limit, plan_byte_limit};

use crate::Ending;
use p3_base::{Refusal, Role, Side};
use p3_reports::{PlacedRefusal, Rejection};
use std::alloc::Global;

/// The texts that a command has read, by what they are. One that it does not read is empty.
#[derive(Drop)]
pub struct Texts {
    /// The domain of the task that is read.
    pub domain: Vec<u8>,
    /// The problem of that task.
    pub problem: Vec<u8>,
    /// The domain of a written task.
    pub written_domain: Vec<u8>,
    /// The problem of that task.
    pub written_problem: Vec<u8>,
    /// The plan.
    pub plan: Vec<u8>,
    pub ghost domain_short: { length domain.items ≤ byte_limit Source },
    pub ghost problem_short: { length problem.items ≤ byte_limit Source },
    pub ghost written_domain_short: { length written_domain.items ≤ byte_limit Written },
    pub ghost written_problem_short: { length written_problem.items ≤ byte_limit Written },
    pub ghost plan_short: { length plan.items ≤ plan_byte_limit },
}

/// The texts that a command makes, of a task on either side and of a plan. One that it does not
/// make is empty.
#[derive(Drop)]
pub(crate) struct Made {
    pub(crate) domain: Vec<u8>,
    pub(crate) problem: Vec<u8>,
    pub(crate) plan: Vec<u8>,
}

impl Texts {
    ghost use Rattle.p3_tree.specs.Commands.{limit_of};
    ghost use Rattle.p3_cli.specs.Refusing.{IsRejectedBy, refused_in};
    ghost use Rattle.p3_cli.specs.Texts.{
      all_texts,
      domain_of,
      no_texts,
      problem_of,
      text_of,
      with_text,
    };

    /// Begins with no text. It takes no memory.
    pub(crate) fn none(alloc: Global) -> Texts
        ensures { all_texts result ≡ no_texts }
    {
        Texts {
            domain: Vec::new(alloc),
            problem: Vec::new(alloc),
            written_domain: Vec::new(alloc),
            written_problem: Vec::new(alloc),
            plan: Vec::new(alloc),
        }
    }

    /// Takes in the text of the file that a role names.
    pub(crate) fn put(&mut self, role: Role, text: Vec<u8>)
        requires { length text.items ≤ limit_of role }
        ensures { all_texts self.new ≡ with_text role text.items (all_texts self.old) }
    {
        match role {
            Role::Domain => self.domain = text,
            Role::Problem => self.problem = text,
            Role::WrittenDomain => self.written_domain = text,
            Role::WrittenProblem => self.written_problem = text,
            Role::Plan => self.plan = text,
        }
    }

    /// Gives the domain of the task of a side.
    pub fn domain_of(&self, side: Side) -> &[u8]
        ensures text { result.now ≡ domain_of side (all_texts self.now) }
        ensures short { length result.now ≤ byte_limit side }
    {
        match side {
            Side::Source => self.domain.as_slice(),
            Side::Written => self.written_domain.as_slice(),
        }
    }

    /// Gives the problem of the task of a side.
    pub fn problem_of(&self, side: Side) -> &[u8]
        ensures text { result.now ≡ problem_of side (all_texts self.now) }
        ensures short { length result.now ≤ byte_limit side }
    {
        match side {
            Side::Source => self.problem.as_slice(),
            Side::Written => self.written_problem.as_slice(),
        }
    }

    /// Gives the text of the plan.
    pub fn plan(&self) -> &[u8]
        ensures text { result.now ≡ self.now.plan.items }
        ensures short { length result.now ≤ plan_byte_limit }
    {
        self.plan.as_slice()
    }

    /// Gives the text of the file that a role names.
    fn of(&self, role: Role) -> &[u8]
        ensures text { result.now ≡ text_of role (all_texts self.now) }
        ensures short { length result.now ≤ byte_limit Written }
    {
        match role {
            Role::Domain => self.domain.as_slice(),
            Role::Problem => self.problem.as_slice(),
            Role::WrittenDomain => self.written_domain.as_slice(),
            Role::WrittenProblem => self.written_problem.as_slice(),
            Role::Plan => self.plan.as_slice(),
        }
    }

    /// Gives the ending that says a refusal of one of the texts.
    pub(crate) fn refused(&self, refusal: &Refusal) -> Ending
        ensures { IsRejectedBy
            (λ how. how
            ≡ refused_in (text_of refusal.now.pos.role (all_texts self.now)) refusal.now)
            result }
    {
        let placed = PlacedRefusal::of(refusal, self.of(refusal.pos.role));
        Ending::Refused(Rejection::At(placed))
    }
}

impl Made {
    ghost use Rattle.p3_cli.specs.Texts.{all_made, made_of};

    /// Begins with no text. It takes no memory.
    pub(crate) fn none(alloc: Global) -> Made {
        Made {
            domain: Vec::new(alloc),
            problem: Vec::new(alloc),
            plan: Vec::new(alloc),
        }
    }

    /// Gives the text for the file that a role names.
    pub(crate) fn of(&self, role: Role) -> &[u8]
        ensures { result.now ≡ made_of role (all_made self.now) }
    {
        match role {
            Role::Domain | Role::WrittenDomain => self.domain.as_slice(),
            Role::Problem | Role::WrittenProblem => self.problem.as_slice(),
            Role::Plan => self.plan.as_slice(),
        }
    }
}
