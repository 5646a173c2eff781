//! The texts of a task, in which words are found by their offsets.

ghost use Rattle.std.specs.Prelude.{◌≡◌, ◌+◌, ◌<◌, ◌^◌, length, option_map, IfOk};
ghost use Rattle.p3_unmet.specs.Sources.{spot_of, texts};

use p3_accounts::{InputFile, Lines, Spot};
use p3_base::{NoMemory, Role};
use std::alloc::Global;

/// The texts of a task, with their lines.
#[derive(Drop)]
pub struct Sources<'a> {
    /// That of the domain.
    pub domain: Lines<'a>,
    /// That of the problem.
    pub problem: Lines<'a>,
}

impl<'a> Sources<'a> {
    /// Finds the lines of two texts.
    ///
    /// # Errors
    ///
    /// Want of memory.
    pub fn of(alloc: Global, domain: &'a [u8], problem: &'a [u8]) -> Result<Sources<'a>, NoMemory>
        requires domain { length domain.now + 1 < 2 ^ 32 }
        requires problem { length problem.now + 1 < 2 ^ 32 }
        ensures { IfOk result (λ sources. texts sources
            ≡ record { domain = domain.now; problem = problem.now }) }
    {
        let domain = Lines::of(alloc, domain)?;
        let problem = Lines::of(alloc, problem)?;
        Ok(Sources { domain, problem })
    }

    /// Finds the spot of an offset in the text of a half.
    pub fn spot(&self, role: Role, offset: u32) -> Spot
        ensures { result ≡ spot_of (texts self.now) role offset }
    {
        match role {
            Role::Domain | Role::WrittenDomain => self.domain.spot(InputFile::Domain, offset),
            Role::Problem | Role::WrittenProblem | Role::Plan => {
                self.problem.spot(InputFile::Problem, offset)
            }
        }
    }

    /// Finds that of an offset, where there is one.
    pub(crate) fn spot_at(&self, role: Role, offset: Option<u32>) -> Option<Spot>
        ensures { result ≡ option_map (spot_of (texts self.now) role) offset }
    {
        match offset {
            Some(offset) => Some(self.spot(role, offset)),
            None => None,
        }
    }
}
