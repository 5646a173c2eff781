//! Forms and changes that several crates make.

ghost use Rattle.std.specs.Prelude.{◌≡◌, IfOk};
ghost use Rattle.p3_formula.specs.Constructors as made;

use crate::{Change, Form};
use p3_base::{Boxed, List, NoMemory};
use std::alloc::Global;

impl Form {
    /// The part does not hold.
    pub fn negation(alloc: Global, part: Form) -> Result<Form, NoMemory>
        ensures { IfOk result (λ form. form ≡ Form.Not part) }
    {
        Ok(Form::Not(Boxed::new(alloc, part)?))
    }

    /// Both hold.
    pub fn both(alloc: Global, first: Form, second: Form) -> Result<Form, NoMemory>
        ensures { IfOk result (λ form. form ≡ made.both first second) }
    {
        let mut parts = Vec::with_capacity(alloc, 2)?;
        parts.push(first)?;
        parts.push(second)?;
        Ok(Form::And(List::from(parts)))
    }
}

impl Change {
    /// The atom is set, whatever holds.
    pub fn sets(atom: usize) -> Change
        ensures { result ≡ made.sets atom }
    {
        Change {
            cond: Form::True,
            atom,
            add: true,
        }
    }

    /// The atom is cleared, whatever holds.
    pub fn clears(atom: usize) -> Change
        ensures { result ≡ made.clears atom }
    {
        Change {
            cond: Form::True,
            atom,
            add: false,
        }
    }
}
