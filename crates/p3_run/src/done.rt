//! The steps that a run has done.

ghost use Rattle.std.specs.Prelude.{◌≡◌, ◌<◌, ◌++◌, ◌∷◌, [], length, IfOk};
ghost use Rattle.p3_run.specs.Runs.{most_steps};

use p3_base::NoMemory;
use std::alloc::Global;
use std::marker::Model;

/// As many steps a run has at most.
const MOST_STEPS: usize = 1_000_000;

/// The numbers of the steps done, with memory for all that a run may do. None of it is filled before
/// its step is done.
#[derive(Drop)]
pub(crate) struct DoneSteps {
    numbers: Vec<u32>,
}

impl Model for DoneSteps {
    ghost use Rattle.std.specs.Prelude.{ℕ, ◌≤◌, List, vec_capacity};
    ghost use Rattle.p3_run.specs.Runs.{most_steps};

    ghost Value = { List ℕ };

    ghost view = { λ done. done.numbers.items };

    ghost invariant = { λ done. most_steps ≤ vec_capacity done.numbers };
}

impl DoneSteps {
    /// No step is done.
    ///
    /// # Errors
    ///
    /// Want of memory.
    pub(crate) fn new(alloc: Global) -> Result<DoneSteps, NoMemory>
        ensures { IfOk result (λ done. done ≡ []) }
    {
        Ok(DoneSteps {
            numbers: Vec::with_capacity(alloc, MOST_STEPS)?,
        })
    }

    /// The step of that number is done. It takes no memory.
    pub(crate) fn push(&mut self, number: u32)
        requires { length self.old < most_steps }
        ensures { self.new ≡ self.old ++ number ∷ [] }
    {
        self.numbers.push_reserved(number);
    }

    /// How many are done.
    pub(crate) fn len(&self) -> usize
        ensures { result ≡ length self.now }
    {
        self.numbers.len()
    }
}
