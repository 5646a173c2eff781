//! By what it is told what names stand for.

use p3_accounts::Terms;
use p3_unmet::Sources;
use std::alloc::Global;

/// Where memory comes from, the texts of the task, and its words.
#[derive(Clone, Copy)]
pub(crate) struct Telling<'a> {
    pub(crate) alloc: Global,
    pub(crate) sources: &'a Sources<'a>,
    pub(crate) terms: &'a Terms<'a>,
}
