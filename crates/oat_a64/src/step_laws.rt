//! Laws of the machine step.
ghost use Rattle.oat_a64.specs.Step.{StepActs, StepKeepsBounds, StepRests};

/// A step does what the instruction at PC does.
pub fn step_acts()
    ensures { StepActs }
{}

/// Where no instruction stands at PC, a step leaves the machine as it is.
pub fn step_rests()
    ensures { StepRests }
{}

/// A step keeps registers within 64 bits and memory within bytes, whatever the code.
pub fn step_keeps_bounds()
    ensures { StepKeepsBounds }
{}
