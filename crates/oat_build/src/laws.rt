//! Laws of the images of programs, each the contract of a function that does nothing.
ghost use Rattle.oat_build.specs.Built.{
  BuiltEdgesAreNamed,
  BuiltImagesAreOfPrograms,
  BuiltProgramsAreCompiled,
  ProgramsCanBeBuilt,
};

use oat_gen::laws::{
    blocks_expand_by_line, blocks_have_their_lines, fitting_programs_are_built,
    functions_have_their_code, globals_have_their_places, marked_code_expands, other_code_stays,
    program_items_can_be_expanded, programs_have_few_words,
};
use oat_match::laws::{
    compiled_programs_mean, compiled_programs_run, compiled_windows_go_back, programs_have_worlds,
};
use oat_shape::laws::operations_open_once;
use oat_symbols::laws::{
    call_sites_are_found, codes_are_of_the_program, codes_stand, places_are_named_by_source,
    programs_have_symbols, programs_have_their_labels, sites_are_named_by_source,
};

/// The items of a checked program are what the expansion and the assembler ask for.
pub fn programs_can_be_built()
    ensures { ProgramsCanBeBuilt }
{
    program_items_can_be_expanded();
    codes_are_of_the_program();
    functions_have_their_code();
    programs_have_symbols();
}

/// The image of a checked program has all that the laws of its lines ask for.
pub fn built_programs_are_compiled()
    ensures { BuiltProgramsAreCompiled }
{
    codes_stand();
    marked_code_expands();
    other_code_stays();
    blocks_expand_by_line();
    globals_have_their_places();
    fitting_programs_are_built();
    programs_have_worlds();
}

/// Each edge of a program has in its image the name that it has in the source.
pub fn built_edges_are_named()
    ensures { BuiltEdgesAreNamed }
{
    marked_code_expands();
    other_code_stays();
    globals_have_their_places();
    blocks_have_their_lines();
    functions_have_their_code();
    fitting_programs_are_built();
    codes_are_of_the_program();
    sites_are_named_by_source();
    places_are_named_by_source();
    call_sites_are_found();
    built_programs_are_compiled();
}

/// The image of a checked program has the shape, the program's functions and operations, and runs as the program does.
pub fn built_images_are_of_programs()
    ensures { BuiltImagesAreOfPrograms }
{
    programs_can_be_built();
    fitting_programs_are_built();
    programs_have_few_words();
    programs_have_their_labels();
    operations_open_once();
    built_programs_are_compiled();
    built_edges_are_named();
    compiled_programs_run();
    compiled_programs_mean();
    compiled_windows_go_back();
}
