//! Laws of symbol tables and built images, each the contract of a function that does nothing.
ghost use Rattle.oat_symbols.specs.Codes.{CodesAreOfTheProgram, CodesFollow, CodesStand, ProgramsAreBuilt};
ghost use Rattle.oat_symbols.specs.Names.{BuiltMapsHaveNames, CallSitesAreFound, PlacesAreNamedBySource, SitesAreCounted, SitesAreNamedBySource};
ghost use Rattle.oat_symbols.specs.Programs.{ProgramsHaveSymbols, ProgramsHaveTheirCells, ProgramsHaveTheirLabels};
ghost use Rattle.oat_symbols.specs.Worked.{IdleIsBuilt};

use oat_a64::laws::fetches_by_the_table;
use oat_check::laws::cells_have_words;

/// What an image has of a checked program is a symbol table.
pub fn programs_have_symbols()
    ensures { ProgramsHaveSymbols }
{}

/// The numbers of the program's functions and blocks are labels of it, and those of its operations are there.
pub fn programs_have_their_labels()
    ensures { ProgramsHaveTheirLabels }
{}

/// The cells of the program are those of its table, and the cells of a critical array are consecutive.
pub fn programs_have_their_cells()
    ensures { ProgramsHaveTheirCells }
{
    cells_have_words();
}

/// Where each function has its code, the functions of the table have theirs.
pub fn codes_are_of_the_program()
    ensures { CodesAreOfTheProgram }
{}

/// The image that is built of the code of a checked program has the shape, and its items stand in it.
pub fn programs_are_built()
    ensures { ProgramsAreBuilt }
{
    fetches_by_the_table();
}

/// The code of each function and block stands at its label.
pub fn codes_stand()
    ensures { CodesStand }
{}

/// The code of each function stands behind that of the one before.
pub fn codes_follow()
    ensures { CodesFollow }
{}

/// Functions and blocks have their names in the map, and the place of an address is the last label at or below it.
pub fn built_maps_have_names()
    ensures { BuiltMapsHaveNames }
{}

/// The places of a program's functions and blocks have the names that its source has.
pub fn places_are_named_by_source()
    ensures { PlacesAreNamedBySource }
{}

/// A return site is named by its call.
pub fn call_sites_are_found()
    ensures { CallSitesAreFound }
{}

/// The number of a site counts the sites since the last label.
pub fn sites_are_counted()
    ensures { SitesAreCounted }
{}

/// The site of a mark in a block has the name of the source's site with as many sites before it.
pub fn sites_are_named_by_source()
    ensures { SitesAreNamedBySource }
{}

/// A worked program has all that the laws ask for, and is built.
pub fn idle_is_built()
    ensures { IdleIsBuilt }
{
    fetches_by_the_table();
}
