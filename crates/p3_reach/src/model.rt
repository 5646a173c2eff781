//! The least model of a theory, by following each rule from its premises (Dowling and Gallier).

ghost use Rattle.std.specs.Prelude.{◌≡◌, ◌<◌, ◌+◌, [], ◌∷◌, ◌++◌, true, length, slice_index_or, slice_set, replicate, IfOk, OnOk};
ghost use Rattle.std.specs.List.{list_all};
ghost use Rattle.p3_reach.specs.Models.{IsModel, IsInEachModel};
ghost use Rattle.p3_reach.specs.Rules.{is_rule_below};
ghost use Rattle.p3_reach.specs.Derived.{Follows, AreFiled, Adds, IsListed};

use crate::rules::{Rule, Theory};
use p3_base::{List, NoMemory};
use p3_formula::Bits;
use std::alloc::Global;

/// The propositions that were found to hold, also in the order in which they were found.
#[derive(Debug, Drop)]
pub struct Derived {
    /// Whether each was found.
    pub held: Bits,
    /// Those that were found.
    pub order: List<usize>,
}

impl Derived {
    /// One proposition more, if it was not found before.
    #[tactic(auto, using(crate::proofs::DerivedLaws::adds_laws))]
    fn add(&mut self, proposition: usize) -> Result<(), NoMemory>
        requires within { proposition < length self.old.held }
        requires listed { IsListed self.old }
        ensures { OnOk result (Adds proposition self.old self.new) }
    {
        if !self.held.get(proposition) {
            self.order.push(proposition)?;
            self.held.set(proposition, true);
        }
        Ok(())
    }
}

/// The facts alone are found.
fn found_facts(alloc: Global, facts: &[bool]) -> Result<Derived, NoMemory>
    ensures held { IfOk result (λ found. found.held ≡ facts.now) }
    ensures listed { IfOk result IsListed }
{
    let mut found = Derived {
        held: Bits::new(alloc, facts.len())?,
        order: List::new(alloc),
    };
    for proposition in 0..facts.len() {
        if facts[proposition] {
            found.add(proposition)?;
        }
    }
    Ok(found)
}

/// An empty list of rules for each proposition.
fn empty_files(alloc: Global, count: usize) -> Result<Vec<List<Rule>>, NoMemory>
    ensures { IfOk result (λ files. files.items ≡ replicate count []) }
{
    let mut files = Vec::new(alloc);
    for place in 0..count {
        files.push(List::new(alloc))?;
    }
    Ok(files)
}

/// The rule goes into the file of the proposition.
fn file(files: &mut Vec<List<Rule>>, proposition: usize, rule: Rule) -> Result<(), NoMemory>
    requires { proposition < length files.old.items }
    ensures { OnOk result
        (files.new.items ≡ slice_set files.old.items proposition
        (slice_index_or files.old.items proposition [] ++ rule ∷ [])) }
{
    files[proposition].push(rule)?;
    Ok(())
}

/// For each proposition the rules of which it is a premise.
fn filed(alloc: Global, theory: &Theory) -> Result<Vec<List<Rule>>, NoMemory>
    ensures size { IfOk result (λ files. length files.items ≡ length theory.now.facts) }
    ensures files { IfOk result (λ files. AreFiled theory.now.rules files.items) }
{
    let mut files = empty_files(alloc, theory.facts.len())?;
    for rule in theory.rules.items() {
        file(&mut files, rule.first, *rule)?;
        file(&mut files, rule.second, *rule)?;
    }
    Ok(files)
}

/// The conclusions of those rules are found whose premises were.
fn follow(found: &mut Derived, rules: &[Rule]) -> Result<(), NoMemory>
    requires within { list_all (is_rule_below (length found.old.held)) rules.now ≡ true }
    requires listed { IsListed found.old }
    ensures { OnOk result (Follows rules.now found.old found.new) }
{
    for rule in rules {
        if found.held.get(rule.first) && found.held.get(rule.second) {
            found.add(rule.gives)?;
        }
    }
    Ok(())
}

/// The least model. Each rule is looked at once for each of its premises.
pub fn least_model(alloc: Global, theory: &Theory) -> Result<Bits, NoMemory>
    ensures size { IfOk result (λ held. length held ≡ length theory.now.facts) }
    ensures model { IfOk result (IsModel theory.now) }
    ensures least { IfOk result (IsInEachModel theory.now) }
{
    let files = filed(alloc, theory)?;
    let mut found = found_facts(alloc, theory.facts.items())?;
    let mut at = 0;
    while at < found.order.len() {
        let proposition = found.order.items()[at];
        follow(&mut found, files[proposition].items())?;
        at += 1;
    }
    Ok(found.held)
}
