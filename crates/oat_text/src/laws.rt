//! Laws of the definitions.

ghost use Rattle.oat_text.specs.Laws.{OneProgram, PrintedIsRead, PrintedIsText, ProgramOrFault, ReadIsText, TextIsRead};

/// What is printed for a program is a text of it.
pub fn printed_is_text()
    ensures { PrintedIsText }
{}

/// A text of a program is read, and gives the program.
pub fn text_is_read()
    ensures { TextIsRead }
{}

/// What is printed for a program is read, and gives the program back.
pub fn printed_is_read()
    ensures { PrintedIsRead }
{}

/// What is read from a text is a program of it.
pub fn read_is_text()
    ensures { ReadIsText }
{}

/// A text stands for one program.
pub fn one_program()
    ensures { OneProgram }
{}

/// A text stands for a program, or it has a first fault and stands for none.
pub fn program_or_fault()
    ensures { ProgramOrFault }
{}
