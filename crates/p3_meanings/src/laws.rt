//! The laws of names: each is the contract of a function without a body.

ghost use Rattle.p3_meanings.specs.Numbered.{NamesAreNumbered};
ghost use Rattle.p3_meanings.specs.Worked.{NamesInOrder};

/// The numbers of names that come from constraints and preferences are those of the written task:
/// the atoms that watch an operator are as many as its monitor has there, and the chain is as long.
pub fn names_are_numbered_as_written()
    ensures { NamesAreNumbered }
{}

/// Small lists of names, and their lines.
pub fn worked_names()
    ensures { NamesInOrder }
{}
