//! What the names of a written task stand for.

ghost use Rattle.std.specs.Prelude.{◌≡◌, ◌≤◌, IfErr, OnErr, OnOk};
ghost use Rattle.p3_base.specs.Outside.{IsPartlyPut, IsPut};
ghost use Rattle.p3_task.specs.Limits.{step_count};
ghost use Rattle.p3_task.specs.Sides.{step_count_limit};
ghost use Rattle.p3_ground.specs.Sparse.{IsGroundingOf};
ghost use Rattle.p3_accounts.specs.Vocabularies.{vocabulary};
ghost use Rattle.p3_unmet.specs.Sources.{texts};
ghost use Rattle.p3_meanings.specs.Names.{AreWordsOf, IsFailOf, names_text};

use crate::atoms::put_atoms;
use crate::constraints::put_constraints;
use crate::error::NamesFail;
use crate::steps::put_steps;
use crate::telling::Telling;
use p3_accounts::Terms;
use p3_base::Sink;
use p3_expansion::Atoms;
use p3_formula::GroundTask;
use p3_types::Checked;
use p3_unmet::Sources;
use std::alloc::Global;

/// Puts what the names of a written task stand for, a line for each: the steps that are kept, the
/// atoms, those that watch operators, and those of the chain in which preferences are settled.
///
/// # Errors
///
/// The sink failed, or memory was wanting; then a first part of the lines is put.
pub fn put_names<S: Sink>(
    alloc: Global,
    checked: &Checked,
    ground: &GroundTask,
    atoms: &Atoms,
    sources: &Sources<'_>,
    terms: &Terms<'_>,
    out: &mut S,
) -> Result<(), NamesFail>
    requires few { step_count checked.now.task ≤ step_count_limit }
    requires grounding { IsGroundingOf checked.now.task ground.now }
    requires words { AreWordsOf checked.now.task checked.now.numbered (vocabulary terms.now) }
    ensures ok { OnOk result (IsPut (names_text (vocabulary terms.now) (texts sources.now)
        checked.now.task ground.now atoms.now)
        (S.seen out.old).written (S.seen out.new).written) }
    ensures partly { OnErr result (IsPartlyPut (names_text (vocabulary terms.now)
        (texts sources.now) checked.now.task ground.now atoms.now)
        (S.seen out.old).written (S.seen out.new).written) }
    ensures failed { IfErr result (IsFailOf (S.seen out.old).faults (S.seen out.new).faults) }
    ensures faults_grow { (S.seen out.old).faults ≤ (S.seen out.new).faults }
{
    let telling = Telling {
        alloc,
        sources,
        terms,
    };
    put_steps(&telling, checked, ground.steps.items(), out)?;
    put_atoms(&telling, atoms, out)?;
    put_constraints(&telling, checked, ground.soft.items(), out)
}
