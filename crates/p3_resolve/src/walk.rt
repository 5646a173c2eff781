//! What a walk over trees has come to.

ghost use Rattle.std.specs.Prelude.{◌≡◌, length, IfOk, OnOk};
ghost use Rattle.p3_numbers.specs.Places.{ranges_of};
ghost use Rattle.p3_resolve.specs.NumbersOf.{numbers_of};
ghost use Rattle.p3_resolve.specs.Walk.{outside, with_variables, behind};

use crate::notes::variables_noted;
use crate::spot::FirstOffences;
use crate::tables::Tables;
use crate::terms::ranges;
use p3_base::{List, NoMemory};
use p3_numbers::Scope;
use p3_task::Typed;
use std::alloc::Global;
use std::marker::Model;

/// The variables in scope, and the first offences that were found.
///
/// Where a list names a variable twice, the first of them is what is used, and the last has the
/// slot; so they are kept in both orders.
#[derive(Drop)]
pub(crate) struct Walk<'t> {
    /// The variables by their slots, the last of a list the innermost.
    pub(crate) slots: Scope<'t>,
    /// The same variables as uses see them, the first of a list the innermost.
    pub(crate) scope: Scope<'t>,
    pub(crate) found: FirstOffences,
}

impl<'t> Model for Walk<'t> {
    ghost use Rattle.p3_numbers.specs.Scopes.{scope_seen};
    ghost use Rattle.p3_resolve.specs.Walk.{Walked};
    ghost use Rattle.p3_task.specs.Slots.{words_of};

    ghost Value = { Walked };

    ghost view = { λ walk. record {
      words = words_of walk.slots;
      scope = scope_seen walk.scope;
      found = walk.found;
    } };
}

impl<'t> Walk<'t> {
    /// Outside all variables.
    pub(crate) fn new(alloc: Global, found: FirstOffences) -> Walk<'t>
        ensures { result ≡ outside found }
    {
        Walk {
            slots: Scope::new(alloc),
            scope: Scope::new(alloc),
            found,
        }
    }

    /// Variables are declared, and in scope from here on; their ranges.
    #[tactic(auto, using(crate::proofs::TermLemmas::scope_laws), unfolding(crate::specs::Walk::with_variables))]
    pub(crate) fn enter(
        &mut self,
        alloc: Global,
        tables: &Tables<'t>,
        variables: &'t [Typed],
    ) -> Result<List<u32>, NoMemory>
        ensures walk { OnOk result
            (self.new ≡ with_variables tables.now.task.now variables.now self.old) }
        ensures ranges { IfOk result
            (λ ranges. ranges ≡ ranges_of (numbers_of tables.now) variables.now) }
    {
        self.found = variables_noted(alloc, self.found, tables, variables)?;
        self.slots.bind(variables)?;
        self.scope.enter(variables)?;
        ranges(alloc, tables, variables)
    }

    /// Behind the tree that these variables are bound in.
    #[tactic(auto, using(crate::proofs::TermLemmas::scope_laws), unfolding(crate::specs::Walk::behind))]
    pub(crate) fn leave(&mut self, variables: &[Typed])
        ensures { self.new ≡ behind (length variables.now) self.old }
    {
        let count = variables.len();
        self.slots.truncate(self.slots.len().saturating_sub(count));
        self.scope.leave(count);
    }
}
