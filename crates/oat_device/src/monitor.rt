//! What a monitor call does to the one engine of a run.
ghost use Rattle.std.specs.Prelude.{◌≡◌, ◌+◌, ◌≤◌, IfSome, Some, Ok};
ghost use Rattle.oat_journal.specs.{measured, measuring, sealed, unmeasured, Keeps, state_at, engine_shown, engine_state, settled};
ghost use Rattle.oat_measure.specs.declared.engine.Engine.TheVariants as EngineOf;
ghost use Rattle.oat_measure.specs.declared.call.MonitorCall.TheVariants as svc;
ghost use Rattle.oat_device.specs.Records.{bits_taken, targets_taken};
ghost use Rattle.oat_device.specs.Telling.{FitsShelf, Settles, measurements_of, outcome};

use oat_measure::{
    Begun, Ended, Engine, Measuring, MonitorCall, Sealed, Shelf, StopKind, Unmeasured,
};

fn told_before(mut before: Unmeasured, call: MonitorCall) -> Engine
    ensures state { measured before.opening (state_at unmeasured before) (Some call) ≡ Ok (engine_state result) }
    ensures keeps { Keeps before (engine_shown result) }
{
    match call {
        MonitorCall::Begin { op, at } => match before.begin(op, at) {
            Begun::Opened(inside) => Engine::Inside(inside),
            Begun::Other(other) => Engine::Before(other),
        },
        MonitorCall::Define { cell, value } => {
            before.def(cell, value);
            Engine::Before(before)
        }
        _ => Engine::Before(before),
    }
}

// An end of another operation than the window's stops the run.
fn ended(inside: Measuring, op: u64) -> (Engine, Option<StopKind>)
    ensures outcome { outcome result.0 result.1 ≡ measured inside.opening (state_at measuring inside) (Some (svc.End op)) }
    ensures stopped { IfSome result.1 (λ kind. engine_state result.0 ≡ state_at measuring inside) }
    ensures keeps { Keeps inside (engine_shown result.0) }
{
    match inside.end(op) {
        Ended::Shut(sealed) => (Engine::After(sealed), None),
        Ended::Other(other) => (Engine::Inside(other), Some(StopKind::WrongEnd)),
    }
}

fn told_inside(mut inside: Measuring, call: MonitorCall) -> (Engine, Option<StopKind>)
    requires bits { bits_taken call ≤ inside.spare_bits }
    requires targets { targets_taken call ≤ inside.spare_targets }
    ensures outcome { outcome result.0 result.1 ≡ measured inside.opening (state_at measuring inside) (Some call) }
    ensures stopped { IfSome result.1 (λ kind. engine_state result.0 ≡ state_at measuring inside) }
    ensures opening { (engine_shown result.0).opening ≡ inside.opening }
    ensures room { (engine_shown result.0).room ≡ inside.room }
    ensures bits { inside.spare_bits ≤ (engine_shown result.0).spare_bits + bits_taken call }
    ensures targets { inside.spare_targets ≤ (engine_shown result.0).spare_targets + targets_taken call }
{
    match call {
        MonitorCall::Begin { .. } => return (Engine::Inside(inside), Some(StopKind::Nested)),
        MonitorCall::End { op } => return ended(inside, op),
        MonitorCall::Bit { value } => inside.bit(value != 0),
        MonitorCall::Target { address } => inside.target(address),
        MonitorCall::Return { address } => inside.ret(address),
        MonitorCall::Define { cell, value } => inside.def(cell, value),
        MonitorCall::Use { cell, value } => inside.use_cell(cell, value),
    }
    (Engine::Inside(inside), None)
}

fn told_after(mut after: Sealed, call: MonitorCall) -> Engine
    ensures state { measured after.opening (state_at sealed after) (Some call) ≡ Ok (engine_state result) }
    ensures keeps { Keeps after (engine_shown result) }
{
    if let MonitorCall::Define { cell, value } = call {
        after.def(cell, value);
    }
    Engine::After(after)
}

/// The engine behind a monitor call, and why that stops the run, where it does.
pub fn told(engine: Engine, call: MonitorCall) -> (Engine, Option<StopKind>)
    requires bits { bits_taken call ≤ (engine_shown engine).spare_bits }
    requires targets { targets_taken call ≤ (engine_shown engine).spare_targets }
    ensures outcome { outcome result.0 result.1 ≡ measured (engine_shown engine).opening (engine_state engine) (Some call) }
    ensures stopped { IfSome result.1 (λ kind. engine_state result.0 ≡ engine_state engine) }
    ensures opening { (engine_shown result.0).opening ≡ (engine_shown engine).opening }
    ensures room { (engine_shown result.0).room ≡ (engine_shown engine).room }
    ensures bits { (engine_shown engine).spare_bits ≤ (engine_shown result.0).spare_bits + bits_taken call }
    ensures targets { (engine_shown engine).spare_targets ≤ (engine_shown result.0).spare_targets + targets_taken call }
{
    match engine {
        Engine::Before(before) => (told_before(before, call), None),
        Engine::Inside(inside) => told_inside(inside, call),
        Engine::After(after) => (told_after(after, call), None),
    }
}

fn shelved_where_due(sealed: Sealed, shelf: &mut Shelf) -> Engine
    requires fits { FitsShelf (EngineOf.After sealed) shelf.old }
    ensures measurements { measurements_of result shelf.new ≡ settled sealed.opening (measurements_of (EngineOf.After sealed) shelf.old) }
    ensures goes_on { Settles (EngineOf.After sealed) result shelf.old shelf.new }
{
    if sealed.is_due() {
        Engine::Before(sealed.next(shelf))
    } else {
        Engine::After(sealed)
    }
}

/// The engine behind a call that doesn't stop the run: a sealed window goes to the shelf where a further one is due.
pub fn settled(engine: Engine, shelf: &mut Shelf) -> Engine
    requires fits { FitsShelf engine shelf.old }
    ensures measurements { measurements_of result shelf.new ≡ settled (engine_shown engine).opening (measurements_of engine shelf.old) }
    ensures goes_on { Settles engine result shelf.old shelf.new }
{
    match engine {
        Engine::After(sealed) => shelved_where_due(sealed, shelf),
        other => other,
    }
}
