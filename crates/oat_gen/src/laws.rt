//! Laws of compiled code, each the contract of a function that does nothing.

ghost use Rattle.oat_gen.specs.GlobalPlaces.{GlobalsHaveTheirPlaces};
ghost use Rattle.oat_gen.specs.Laws.{
  BlocksExpandByLine,
  BlocksHaveTheirLines,
  FittingProgramsAreBuilt,
  FunctionsHaveTheirCode,
  MarkedCodeExpands,
  OtherCodeStays,
  ProgramItemsCanBeExpanded,
  ProgramsHaveFewWords,
};
ghost use Rattle.oat_gen.specs.Leaves.{ProgramsSpareStack};
ghost use Rattle.oat_gen.specs.Worked.{IdleIsGenerated};

use oat_check::laws::words_are_few;
use oat_symbols::laws::{
    codes_are_of_the_program, programs_are_built, programs_have_their_cells,
    programs_have_their_labels,
};

/// Each global lies behind those before it.
pub fn globals_have_their_places()
    ensures { GlobalsHaveTheirPlaces }
{}

/// Code with a mark becomes the code of its line.
pub fn marked_code_expands()
    ensures { MarkedCodeExpands }
{}

/// Code without a mark is its own expansion.
pub fn other_code_stays()
    ensures { OtherCodeStays }
{}

/// The expansion of a block is that of its lines, one behind the other.
pub fn blocks_expand_by_line()
    ensures { BlocksExpandByLine }
{}

/// Each line of a block has its code there.
pub fn blocks_have_their_lines()
    ensures { BlocksHaveTheirLines }
{}

/// The code of each function of a checked program is made of parts.
pub fn functions_have_their_code()
    ensures { FunctionsHaveTheirCode }
{
    programs_have_their_labels();
    programs_have_their_cells();
    words_are_few();
}

/// The items of a checked program are what the expansion and the assembler ask for.
pub fn program_items_can_be_expanded()
    ensures { ProgramItemsCanBeExpanded }
{
    codes_are_of_the_program();
    functions_have_their_code();
    programs_are_built();
}

/// Where they fit, the image that is built of them has the shape, and they stand in it.
pub fn fitting_programs_are_built()
    ensures { FittingProgramsAreBuilt }
{
    codes_are_of_the_program();
    functions_have_their_code();
    programs_are_built();
}

/// Their words are bounded, whether they fit or not.
pub fn programs_have_few_words()
    ensures { ProgramsHaveFewWords }
{
    codes_are_of_the_program();
    functions_have_their_code();
}

/// Leaves with at most eight locals have them in registers.
pub fn programs_spare_stack()
    ensures { ProgramsSpareStack }
{}

/// A worked program has its code.
pub fn idle_is_generated()
    ensures { IdleIsGenerated }
{}
