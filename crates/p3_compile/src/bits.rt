//! The initial state of a target.

ghost use Rattle.std.specs.Prelude.{◌≡◌, ◌++◌, IfOk};
ghost use Rattle.std.specs.List.{flat_map};
ghost use Rattle.p3_monitors.specs.declared.monitoring.Monitor.{Monitor};
ghost use Rattle.p3_simulation.specs.Monitoring.{initial_bits};

use p3_base::NoMemory;
use p3_formula::Bits;
use p3_monitors::Monitor;
use std::alloc::Global;

/// The state with these bits.
fn bits_of(alloc: Global, values: &[bool]) -> Result<Bits, NoMemory>
    ensures { IfOk result (λ bits. bits ≡ values.now) }
{
    let mut bits = Bits::new(alloc, values.len())?;
    for place in 0..values.len() {
        bits.set(place, values[place]);
    }
    Ok(bits)
}

/// The bits of the task's atoms, and behind them those of the monitors'.
fn first_bits(alloc: Global, start: &Bits, monitors: &[Monitor]) -> Result<Vec<bool>, NoMemory>
    ensures { IfOk result (λ bits. bits.items
        ≡ start.now ++ flat_map (λ (monitor : Monitor). monitor.initial) monitors.now) }
{
    let mut bits = Vec::new(alloc);
    'own: for atom in 0..start.count() {
        bits.push(start.get(atom))?;
    }
    'watched: for monitor in monitors {
        bits.extend_from_slice(monitor.initial.items())?;
    }
    Ok(bits)
}

/// The initial state: that of the task, the monitors' bits, the running atom, and so many atoms
/// that are not set.
pub(crate) fn initial_bits(
    alloc: Global,
    start: &Bits,
    monitors: &[Monitor],
    idle: usize,
) -> Result<Bits, NoMemory>
    ensures { IfOk result (λ bits. bits ≡ initial_bits start.now monitors.now idle) }
{
    let mut bits = first_bits(alloc, start, monitors)?;
    bits.push(true)?;
    for _ in 0..idle {
        bits.push(false)?;
    }
    bits_of(alloc, &bits)
}
