//! Laws of calls and returns in compiled code, each the contract of a function that does nothing.
ghost use Rattle.oat_frames.specs.Calls.{
  CallsLayFrames,
  CallsLead,
  DeepCallsTrap,
  IndirectCallsLead,
  NullCallsTrap,
};
ghost use Rattle.oat_frames.specs.Lines.{LinesStand, WordsAddUp};
ghost use Rattle.oat_frames.specs.Returns.{ReturnsComeBack, ReturnsLead, StartLeads};
ghost use Rattle.oat_frames.specs.Worked.{OneCallReturns};

/// A call lays the callee's frame, and leads behind its prologue.
pub fn calls_lay_frames()
    ensures { CallsLayFrames }
{}

/// Where the callee's first line stands behind its prologue, a call leads to it.
pub fn calls_lead()
    ensures { CallsLead }
{}

/// With 256 callers a call traps, and shows nothing.
pub fn deep_calls_trap()
    ensures { DeepCallsTrap }
{}

/// A call by a reference leads to the first line of its function.
pub fn indirect_calls_lead()
    ensures { IndirectCallsLead }
{}

/// A call by null traps, and shows nothing.
pub fn null_calls_trap()
    ensures { NullCallsTrap }
{}

/// A return leads behind its call with the result, from wherever its code stands.
pub fn returns_come_back()
    ensures { ReturnsComeBack }
{}

/// A return at its line leads behind its call, with the result.
pub fn returns_lead()
    ensures { ReturnsLead }
{}

/// The start of a run leads to the first line of main.
pub fn start_leads()
    ensures { StartLeads }
{}

/// The lines of a block stand in its code, each at its place.
pub fn lines_stand()
    ensures { LinesStand }
{}

/// The words of a block's lines add up.
pub fn words_add_up()
    ensures { WordsAddUp }
{}

/// The smallest image with a call runs as its source.
pub fn one_call_returns()
    ensures { OneCallReturns }
{}
