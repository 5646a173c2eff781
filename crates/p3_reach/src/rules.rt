//! Rules between propositions.

ghost use Rattle.std.specs.Prelude.{◌≡◌, ◌≤◌, [], ◌∷◌, ◌++◌, false, true, length, IfOk, OnOk};
ghost use Rattle.std.specs.List.{list_all};
ghost use Rattle.p3_reach.specs.Rules.{is_rule_below, keeps_rule};

use p3_base::{List, NoMemory};

/// Where both premises hold, so does the conclusion.
#[derive(Clone, Copy, Debug)]
pub struct Rule {
    /// One premise.
    pub first: usize,
    /// The other premise.
    pub second: usize,
    /// The conclusion.
    pub gives: usize,
}

/// Rules between numbered propositions, some of which hold from the outset. The first ones say that
/// an atom may be set.
#[derive(Debug, Drop)]
pub struct Theory {
    /// How many propositions are atoms.
    pub atoms: usize,
    /// Whether each proposition holds from the outset.
    pub facts: List<bool>,
    /// The rules.
    pub rules: List<Rule>,
    ghost room: { atoms ≤ length facts },
    ghost within: { list_all (is_rule_below (length facts)) rules ≡ true },
}

impl Theory {
    ghost use Rattle.p3_reach.specs.Models.{Says};

    /// One proposition more, which stands in no rule yet.
    pub fn proposition(&mut self) -> Result<usize, NoMemory>
        ensures number { IfOk result (λ proposition. proposition ≡ length self.old.facts) }
        ensures atoms { OnOk result (self.new.atoms ≡ self.old.atoms) }
        ensures facts { OnOk result (self.new.facts ≡ self.old.facts ++ false ∷ []) }
        ensures rules { OnOk result (self.new.rules ≡ self.old.rules) }
    {
        let proposition = self.facts.len();
        self.facts.push(false)?;
        Ok(proposition)
    }

    /// One rule more.
    #[tactic(auto, using(crate::proofs::RuleLaws::rules_within_push, crate::proofs::ModelLaws::says_rule))]
    pub fn add(&mut self, rule: Rule) -> Result<(), NoMemory>
        requires { is_rule_below (length self.old.facts) rule ≡ true }
        ensures { OnOk result (Says (λ set. keeps_rule set rule) self.old self.new) }
    {
        self.rules.push(rule)?;
        Ok(())
    }
}
