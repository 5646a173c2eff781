//! Laws of the definitions. Each is the contract of a function without a body.

ghost use Rattle.std.specs.Prelude.{◌≡◌, List};
ghost use Rattle.p3_formula.specs.Forms.{State, truth};
ghost use Rattle.p3_formula.specs.GroundSat.{ground_sat};
ghost use Rattle.p3_formula.specs.Kept.{Kept};
ghost use Rattle.p3_monitors.specs.Riders.{RideTogether, RidesUntouched};
ghost use Rattle.p3_monitors.specs.declared.monitoring.Monitor.{Monitor};

/// Where a monitor's atoms are right of the states visited so far, its accept form is satisfaction.
pub fn accepting_is_satisfaction()
    ensures { (monitor : Monitor) (W : List State) (state : State)
        → Kept monitor.base monitor.modal W state
        → truth state monitor.accept ≡ ground_sat W monitor.modal }
{}

/// Several monitors ride on one step: with the changes of all of them at once, and others beside
/// them, each is kept.
pub fn monitors_ride_together()
    ensures { RideTogether }
{}

/// A monitor whose constraint the step does not touch, and none of whose own atoms it changes, is
/// kept with its atoms left alone.
pub fn untouched_monitors_ride()
    ensures { RidesUntouched }
{}
