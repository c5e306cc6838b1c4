//! Laws of compiled programs, each the contract of a function that does nothing.
ghost use Rattle.oat_match.specs.Compiled.{LinesArePlaced, ProgramsHaveWorlds};
ghost use Rattle.oat_match.specs.DeepCalls.{DeepIndirectCallsTrap};
ghost use Rattle.oat_match.specs.Following.{CompiledProgramsMean, CompiledProgramsRun, CompiledWindowsGoBack, StepsTakeEdges};
ghost use Rattle.oat_match.specs.Matching.{CellsStartAlike, StartsAreMatched, StepsAreMatched};

use oat_check::laws::{cell_words_are_there, cells_are_words, elements_are_numbered};

/// A checked program has its world.
pub fn programs_have_worlds()
    ensures { ProgramsHaveWorlds }
{}

/// The code of each line stands at its place.
pub fn lines_are_placed()
    ensures { LinesArePlaced }
{}

/// An indirect call with 256 callers traps, and shows nothing.
pub fn deep_indirect_calls_trap()
    ensures { DeepIndirectCallsTrap }
{}

/// Each source step of a compiled program is matched by at most 300 instructions that show the same, and the relation is kept.
pub fn steps_are_matched()
    ensures { StepsAreMatched }
{
    elements_are_numbered();
}

/// At most 300 instructions lead from the start of a run to where the source starts.
pub fn starts_are_matched()
    ensures { StartsAreMatched }
{}

/// The cells of the image hold at the start what those of the source hold.
pub fn cells_start_alike()
    ensures { CellsStartAlike }
{
    cells_are_words();
    cell_words_are_there();
}

/// Each edge that a step takes is one of the program's lines.
pub fn steps_take_edges()
    ensures { StepsTakeEdges }
{}

/// Where edges have their names, the image of a compiled program runs as its source.
pub fn compiled_programs_run()
    ensures { CompiledProgramsRun }
{
    steps_are_matched();
    starts_are_matched();
    steps_take_edges();
    cells_start_alike();
}

/// And a measured run means it, in each session whose windows open where their operation begins.
pub fn compiled_programs_mean()
    ensures { CompiledProgramsMean }
{
    compiled_programs_run();
}

/// The executed path of each window that it seals goes back as it called.
pub fn compiled_windows_go_back()
    ensures { CompiledWindowsGoBack }
{
    compiled_programs_mean();
    steps_take_edges();
}
