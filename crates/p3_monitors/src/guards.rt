//! The forms that hold where a step does not break a constraint: the condition under which the
//! monitor would note that it is broken does not hold.

ghost use Rattle.std.specs.Prelude.{◌≡◌, IfOk};
ghost use Rattle.p3_monitors.specs.Updates as made;

use crate::updates::{back, early, unless};
use p3_base::NoMemory;
use p3_formula::Form;
use std::alloc::Global;

/// Makes the form that holds where the step does not let the form come back after a gap.
pub(crate) fn not_back(
    alloc: Global,
    base: usize,
    form: &Form,
    later: Form,
) -> Result<Form, NoMemory>
    ensures { IfOk result (λ guard. guard ≡ made.unless (made.back base form.now later)) }
{
    unless(alloc, back(alloc, base, form, later)?)
}

/// Makes the form that holds where the step does not let the first form come too early.
pub(crate) fn not_early(alloc: Global, base: usize, first: Form) -> Result<Form, NoMemory>
    ensures { IfOk result (λ guard. guard ≡ made.unless (made.early base first)) }
{
    unless(alloc, early(alloc, base, first)?)
}
