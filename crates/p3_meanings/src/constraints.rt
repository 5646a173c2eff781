//! The names of a written task that come from constraints and preferences.

ghost use Rattle.std.specs.Prelude.{◌≡◌, ◌≤◌, ◌++◌, IfErr, IfOk, OnErr, OnOk};
ghost use Rattle.std.specs.Prelude.{flat_map, map};
ghost use Rattle.p3_base.specs.Outside.{IsPartlyPut, IsPut, Rose};
ghost use Rattle.p3_scenes.specs.Seen.{seen_soft};
ghost use Rattle.p3_accounts.specs.Meanings.{meaning_line};
ghost use Rattle.p3_accounts.specs.Vocabularies.{vocabulary};
ghost use Rattle.p3_unmet.specs.Sources.{texts};
ghost use Rattle.p3_meanings.specs.Chains.{settling_said};
ghost use Rattle.p3_meanings.specs.Monitors.{monitors_said};
ghost use Rattle.p3_meanings.specs.Names.{AreWordsOf, IsFailOf, constraint_lines};
ghost use Rattle.p3_meanings.specs.Said.{said_lines};
ghost use Rattle.p3_meanings.specs.Told.{AreNamed, AreScenesOf};

use crate::chain::chain;
use crate::error::NamesFail;
use crate::monitors::{push_hard, push_soft};
use crate::telling::Telling;
use crate::unnumbered::numbered;
use p3_accounts::{Meaning, put_meanings};
use p3_base::{List, NoMemory, Sink, SinkFailed};
use p3_formula::GroundSoft;
use p3_scenes::{InstanceScene, hard_scenes, instance_scenes};
use p3_types::Checked;

/// What the names that come from constraints and preferences stand for.
#[derive(Drop)]
struct ConstraintNames {
    monitors: List<Meaning>,
    chain: List<Meaning>,
}

/// Tells what the atoms of monitors watch.
fn monitor_names(
    telling: &Telling<'_>,
    checked: &Checked,
    softs: &[GroundSoft],
    instances: &[InstanceScene<'_>],
) -> Result<List<Meaning>, NoMemory>
    requires words { AreWordsOf checked.now.task checked.now.numbered
        (vocabulary telling.now.terms.now) }
    requires named { AreNamed checked.now.task softs.now }
    requires scenes { AreScenesOf checked.now.task checked.now.numbered.numbers
        (map seen_soft instances.now) }
    ensures { IfOk result (λ meanings.
        flat_map (meaning_line (vocabulary telling.now.terms.now)) meanings
        ≡ said_lines (vocabulary telling.now.terms.now) 0
        (monitors_said (texts telling.now.sources.now) checked.now.task)) }
{
    let mut found = List::new(telling.alloc);
    let hard = hard_scenes(telling.alloc, checked.task(), checked.numbered())?;
    push_hard(telling, hard.items(), &mut found)?;
    push_soft(telling, softs, instances, &mut found)?;
    numbered(telling.alloc, found)
}

/// Tells in which order preferences are settled.
fn chain_names(
    telling: &Telling<'_>,
    checked: &Checked,
    softs: &[GroundSoft],
    instances: &[InstanceScene<'_>],
) -> Result<List<Meaning>, NoMemory>
    requires words { AreWordsOf checked.now.task checked.now.numbered
        (vocabulary telling.now.terms.now) }
    requires named { AreNamed checked.now.task softs.now }
    requires scenes { AreScenesOf checked.now.task checked.now.numbered.numbers
        (map seen_soft instances.now) }
    ensures { IfOk result (λ meanings.
        flat_map (meaning_line (vocabulary telling.now.terms.now)) meanings
        ≡ said_lines (vocabulary telling.now.terms.now) 0
        (settling_said (texts telling.now.sources.now) checked.now.task)) }
{
    // what is known of a checked task
    let _ = checked.numbered();
    let found = chain(telling, softs, instances)?;
    numbered(telling.alloc, found)
}

/// Tells what the names that come from constraints and preferences stand for.
fn constraint_names(
    telling: &Telling<'_>,
    checked: &Checked,
    softs: &[GroundSoft],
) -> Result<ConstraintNames, NoMemory>
    requires words { AreWordsOf checked.now.task checked.now.numbered
        (vocabulary telling.now.terms.now) }
    requires named { AreNamed checked.now.task softs.now }
    ensures monitors { IfOk result (λ names.
        flat_map (meaning_line (vocabulary telling.now.terms.now)) names.monitors
        ≡ said_lines (vocabulary telling.now.terms.now) 0
        (monitors_said (texts telling.now.sources.now) checked.now.task)) }
    ensures chain { IfOk result (λ names.
        flat_map (meaning_line (vocabulary telling.now.terms.now)) names.chain
        ≡ said_lines (vocabulary telling.now.terms.now) 0
        (settling_said (texts telling.now.sources.now) checked.now.task)) }
{
    let instances = instance_scenes(telling.alloc, checked.task(), checked.numbered())?;
    let monitors = monitor_names(telling, checked, softs, instances.items())?;
    let chain = chain_names(telling, checked, softs, instances.items())?;
    Ok(ConstraintNames { monitors, chain })
}

/// Puts the lines of both.
fn put_both<S: Sink>(
    telling: &Telling<'_>,
    names: &ConstraintNames,
    out: &mut S,
) -> Result<(), SinkFailed>
    ensures ok { OnOk result (IsPut
        (flat_map (meaning_line (vocabulary telling.now.terms.now)) names.now.monitors
        ++ flat_map (meaning_line (vocabulary telling.now.terms.now)) names.now.chain)
        (S.seen out.old).written (S.seen out.new).written) }
    ensures partly { OnErr result (IsPartlyPut
        (flat_map (meaning_line (vocabulary telling.now.terms.now)) names.now.monitors
        ++ flat_map (meaning_line (vocabulary telling.now.terms.now)) names.now.chain)
        (S.seen out.old).written (S.seen out.new).written) }
    ensures failed { OnErr result (Rose (S.seen out.old).faults (S.seen out.new).faults) }
    ensures faults_grow { (S.seen out.old).faults ≤ (S.seen out.new).faults }
{
    put_meanings(names.monitors.items(), telling.terms, out)?;
    put_meanings(names.chain.items(), telling.terms, out)
}

/// Puts the lines of the names that come from constraints and preferences.
pub(crate) fn put_constraints<S: Sink>(
    telling: &Telling<'_>,
    checked: &Checked,
    softs: &[GroundSoft],
    out: &mut S,
) -> Result<(), NamesFail>
    requires words { AreWordsOf checked.now.task checked.now.numbered
        (vocabulary telling.now.terms.now) }
    requires named { AreNamed checked.now.task softs.now }
    ensures ok { OnOk result (IsPut (constraint_lines (vocabulary telling.now.terms.now)
        (texts telling.now.sources.now) checked.now.task)
        (S.seen out.old).written (S.seen out.new).written) }
    ensures partly { OnErr result (IsPartlyPut (constraint_lines (vocabulary telling.now.terms.now)
        (texts telling.now.sources.now) checked.now.task)
        (S.seen out.old).written (S.seen out.new).written) }
    ensures failed { IfErr result (IsFailOf (S.seen out.old).faults (S.seen out.new).faults) }
    ensures faults_grow { (S.seen out.old).faults ≤ (S.seen out.new).faults }
{
    match constraint_names(telling, checked, softs) {
        Ok(names) => match put_both(telling, &names, out) {
            Ok(()) => Ok(()),
            Err(SinkFailed) => Err(NamesFail::SinkFailed),
        },
        Err(NoMemory) => Err(NamesFail::NoMemory),
    }
}
