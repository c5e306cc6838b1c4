//! What follows from a call's answer and of the defined outcome, for all commands: each function's contract is the law.

ghost use Rattle.oat_tool.specs.DefinedLaws.{LinesAreSpelled, OneCommand, OneOutcome, WorkIsOfCommand};
ghost use Rattle.oat_tool.specs.CallLaws.{WholeIsPut, DefinedIsShown, TheDefinedIsShown, FrontIsPut, RefusalsAreQuiet, ReadFaultsAreTold};
ghost use Rattle.oat_tool.specs.Completeness.{CallsAreComplete, HeldFilesAreAnswered};

pub mod attest;
pub mod attest_json;
pub mod build;
pub mod device;
pub mod drill;
pub mod interpret;
pub mod owner;
pub mod policy;
pub mod trace;
pub mod verify;

/// Of each call whose contents are told.
pub fn calls_show_what_is_defined()
    ensures whole { WholeIsPut }
    ensures exact { DefinedIsShown }
    ensures given { TheDefinedIsShown }
    ensures front { FrontIsPut }
    ensures quiet { RefusalsAreQuiet }
    ensures read_fault { ReadFaultsAreTold }
{}

/// The words of each command.
pub fn words_are_of_one_command()
    ensures spelled { LinesAreSpelled }
    ensures one { OneCommand }
{}

/// Where no count rises, files that are held are answered, and such as the command takes with a status of work.
pub fn calls_are_complete()
    ensures held { HeldFilesAreAnswered }
    ensures taken { CallsAreComplete }
{}

/// Words and contents have one defined outcome, where the command ends in one way behind its files.
pub fn one_outcome()
    ensures { OneOutcome }
{}

/// A status of work is that of the command's end.
pub fn work_is_of_command()
    ensures { WorkIsOfCommand }
{}
