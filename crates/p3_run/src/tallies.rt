//! Counters of violations.

ghost use Rattle.std.specs.Prelude.{◌≡◌, ◌+◌, ◌^◌, ◌<◌, length, replicate, IfOk};
ghost use Rattle.p3_run.specs.Tallies as tally;

use p3_base::NoMemory;
use std::alloc::Global;
use std::marker::Model;

/// How often each name is violated, and what the violations weigh together.
#[derive(Drop)]
pub(crate) struct Tally {
    counts: Vec<u64>,
    worth: u128,
}

impl Model for Tally {
    ghost use Rattle.p3_run.specs.Tallies.{Counted};

    ghost Value = { Counted };

    ghost view = { λ tally. record { counts = tally.counts.items; worth = tally.worth } };
}

impl Tally {
    /// Nothing is violated.
    pub(crate) fn new(alloc: Global, names: usize) -> Result<Tally, NoMemory>
        ensures { IfOk result (λ made. made ≡ record { counts = replicate names 0; worth = 0 }) }
    {
        Ok(Tally {
            counts: vec![in alloc; 0; names]?,
            worth: 0,
        })
    }

    /// One violation more, which counts only where it has a name.
    pub(crate) fn add(&mut self, name: Option<u32>, by_name: &[u64])
        requires { tally.CanAdd by_name.now name self.old }
        ensures { self.new ≡ tally.added by_name.now name self.old }
    {
        if let Some(name) = name {
            self.counts[name as usize] += 1;
            self.worth += u128::from(by_name[name as usize]);
        }
    }

    /// One violation less.
    pub(crate) fn remove(&mut self, name: Option<u32>, by_name: &[u64])
        requires { tally.CanRemove by_name.now name self.old }
        ensures { self.new ≡ tally.removed by_name.now name self.old }
    {
        if let Some(name) = name {
            self.counts[name as usize] -= 1;
            self.worth -= u128::from(by_name[name as usize]);
        }
    }

    /// More weight, of what is no violation.
    pub(crate) fn weigh(&mut self, more: u128)
        requires { self.old.worth + more < 2 ^ 128 }
        ensures { self.new ≡ record { counts = self.old.counts; worth = self.old.worth + more } }
    {
        self.worth += more;
    }

    /// How often the name is violated.
    pub(crate) fn count(&self, name: usize) -> u64
        requires { name < length self.now.counts }
        ensures { result ≡ tally.count_at (Some name) self.now.counts }
    {
        self.counts[name]
    }

    /// What the violations weigh together.
    pub(crate) fn worth(&self) -> u128
        ensures { result ≡ self.now.worth }
    {
        self.worth
    }
}
