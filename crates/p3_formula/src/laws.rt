//! Laws of states after changes and of the names of actions, as contracts of functions without a
//! body.

ghost use Rattle.std.specs.Prelude.{◌≡◌, ◌≢◌, ◌<◌, ◌≤◌, ◌^◌, ◌∷◌, ◌++◌, ℕ, List, length, Some, None, IsTrue, false};
ghost use Rattle.p3_base.specs.Copies.{copy_name};
ghost use Rattle.p3_base.specs.Words.{Name};
ghost use Rattle.p3_formula.specs.Alike.{AreAlike, AgreeBelow, AreConditionsBelow};
ghost use Rattle.p3_formula.specs.Forms.{State};
ghost use Rattle.p3_formula.specs.GroundSat.{ground_sat};
ghost use Rattle.p3_formula.specs.Lasting.{stays_broken};
ghost use Rattle.p3_formula.specs.Next.{after};
ghost use Rattle.p3_formula.specs.Targets.{lifted_number};
ghost use Rattle.p3_formula.specs.declared.form.Change.{Change};
ghost use Rattle.p3_formula.specs.GroundModal.{GroundModal};
ghost use Rattle.p3_formula.specs.declared.task.GroundTask.{GroundTask};

/// Changes of the same atoms, under conditions of the same truth, make the same state.
pub fn alike_changes_make_the_same_state()
    ensures { (state : State) (effects others : List Change)
        → AreAlike effects others → after state effects ≡ after state others }
{}

/// States that agree below a count agree there after changes whose conditions are below it.
pub fn states_agree_after_changes()
    ensures { (count : ℕ) (first second : State) (effects : List Change)
        → AgreeBelow count first second → AreConditionsBelow count effects
        → count ≤ length first → count ≤ length second
        → AgreeBelow count (after first effects) (after second effects) }
{}

/// A copy of a step counts as that step, and a name that begins with another letter as none.
pub fn copies_count_as_their_step()
    ensures copies { (G : GroundTask) (number : ℕ) (rest : Name)
        → number < G.step_count → G.step_count ≤ 2 ^ 64
        → lifted_number G (copy_name number rest) ≡ Some number }
    ensures others { (G : GroundTask) (byte : ℕ) (rest : Name)
        → 115 ≢ byte → lifted_number G (byte ∷ rest) ≡ None }
{}

/// A constraint on all states, on coming back, or on what comes first stays broken once it is: over
/// the states visited so far it is satisfied where it is over those and any that come after them.
pub fn broken_constraints_stay_broken()
    ensures satisfied { (visited rest : List State) (modal : GroundModal)
        → IsTrue (stays_broken modal) → IsTrue (ground_sat (visited ++ rest) modal)
        → IsTrue (ground_sat visited modal) }
    ensures broken { (visited rest : List State) (modal : GroundModal)
        → IsTrue (stays_broken modal) → ground_sat visited modal ≡ false
        → ground_sat (visited ++ rest) modal ≡ false }
{}
