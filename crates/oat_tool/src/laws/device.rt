//! Laws of `device`.

ghost use Rattle.oat_tool.specs.DeviceLaws.{RunIsShown, RunIsNotRejected, OneDeviceAnswer};

/// What its statuses say.
pub fn statuses()
    ensures ran { RunIsShown }
    ensures not_rejected { RunIsNotRejected }
{}

/// Files have one answer.
pub fn one_device_answer()
    ensures { OneDeviceAnswer }
{}
