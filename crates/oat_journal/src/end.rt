use oat_a64::FaultKind;
use oat_map::TrapKind;
use oat_measure::StopKind;

/// How a device run ended.
#[derive(Clone, Copy)]
pub enum DeviceEnd {
    Halted,
    Trap(TrapKind),
    Fault(FaultKind),
    Stopped(StopKind),
    /// The case's steps were done without an end.
    OutOfSteps,
}
