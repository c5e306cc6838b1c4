//! Laws of devices and of their runs, each the contract of a function that does nothing.
ghost use Rattle.oat_device.specs.Advancing.{MeasuredRunsStay, JournalsGrow};
ghost use Rattle.oat_device.specs.DeviceRun.{StepsMakeTheRun, WindowsAreCounted};

/// From its start, with all steps of the case made, a device has made the whole run.
pub fn steps_make_the_run()
    ensures { StepsMakeTheRun }
{}

/// A run whose last window has sealed has all the bodies that its session calls for, and any other run has fewer.
pub fn windows_are_counted()
    ensures { WindowsAreCounted }
{}

/// A measured run that ended is that of each greater number of instructions.
pub fn measured_runs_stay()
    ensures { MeasuredRunsStay }
{}

/// The journal of a measured run begins with that of each smaller number of instructions.
pub fn journals_grow()
    ensures { JournalsGrow }
{}
