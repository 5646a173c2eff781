//! What the numbers of an account stand for.

use p3_numbers::Numbers;
use p3_reasons::PlacedStep;
use p3_task::Action;

/// A file that is read.
#[derive(Clone, Copy, Debug, PartialEq, Eq)]
pub enum InputFile {
    /// That of the domain.
    Domain,
    /// That of the problem.
    Problem,
    /// That of the plan.
    Plan,
}

/// What the files and numbers of an account stand for.
#[derive(Clone, Copy)]
pub struct Terms<'a> {
    /// The name of the domain's file, as it was given.
    pub domain: &'a [u8],
    /// That of the problem's file.
    pub problem: &'a [u8],
    /// That of the plan's file.
    pub plan: &'a [u8],
    /// The actions of the task, by their places.
    pub actions: &'a [Action],
    /// What all else that has a number is called.
    pub numbers: &'a Numbers,
    /// The steps of the plan, the first of them number 1.
    pub steps: &'a [PlacedStep],
}
