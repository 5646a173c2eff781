//! The operators of a task in groups: those of the hard constraints, and behind them those of each
//! instance of a preference.

ghost use Rattle.std.specs.Prelude.{◌≡◌, ◌<◌, ◌≤◌, length};
ghost use Rattle.p3_base.specs.Limits.{instance_limit};
ghost use Rattle.p3_run.specs.Groups as watched;

use crate::readers::OperatorReader;
use p3_formula::{GroundModal, GroundTask};

/// How many groups there are.
pub fn group_count(task: &GroundTask) -> usize
    requires { length task.now.soft ≤ instance_limit }
    ensures { result ≡ length (watched.modals_of task.now) }
{
    task.soft.len() + 1
}

/// The operators of a group.
pub fn modals_at(task: &GroundTask, group: usize) -> &[GroundModal]
    requires { group < length (watched.modals_of task.now) }
    ensures { result.now ≡ watched.modals_at task.now group }
{
    if group == 0 {
        task.hard.items()
    } else {
        task.soft.items()[group - 1].parts.items()
    }
}

/// The operator that reads.
pub fn modal_at(task: &GroundTask, reader: OperatorReader) -> &GroundModal
    requires { watched.IsReader task.now reader }
    ensures { result.now ≡ watched.modal_at task.now reader }
{
    &modals_at(task, reader.group)[reader.place]
}
