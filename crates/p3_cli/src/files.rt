//! The files that a request reads.

ghost use Rattle.std.specs.Prelude.{◌≡◌, IfOk};
ghost use Rattle.p3_tree.specs.Commands.{inputs, limit_of};
ghost use Rattle.p3_cli.specs.Asked.{asked_command, asked_inputs};

use crate::request::{Input, Request};
use crate::table::row_of;
use p3_base::{NoMemory, Role};
use std::alloc::Global;

/// The greatest number of bytes of a file of the task read.
const SOURCE_LIMIT: u32 = 16_777_216;

/// The greatest number of bytes of a file of a written task.
const WRITTEN_LIMIT: u32 = 268_435_456;

/// The greatest number of bytes of a file of a plan.
const PLAN_LIMIT: u32 = 16_777_216;

impl<'a> Request<'a> {
    /// Lists the files that are read, in the order of the command line.
    pub(crate) fn inputs(&self, alloc: Global) -> Result<Vec<Input<'a>>, NoMemory>
        ensures { IfOk result (λ all. asked_inputs all.items ≡ inputs (asked_command self.now)) }
    {
        let names = self.reads;
        let roles = row_of(self.kind).reads;
        let mut inputs = Vec::new(alloc);
        for (place, name) in names.iter().enumerate() {
            inputs.push(Input {
                role: roles[place],
                name,
            })?;
        }
        Ok(inputs)
    }
}

/// Gives the greatest number of bytes of a file of the role.
pub(crate) fn limit_of(role: Role) -> u32
    ensures { result ≡ limit_of role }
{
    match role {
        Role::Domain | Role::Problem => SOURCE_LIMIT,
        Role::WrittenDomain | Role::WrittenProblem => WRITTEN_LIMIT,
        Role::Plan => PLAN_LIMIT,
    }
}
