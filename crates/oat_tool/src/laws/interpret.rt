//! Laws of `run`.

ghost use Rattle.oat_tool.specs.InterpretLaws.{SourceRunIsShown, OneInterpretation};

/// What its status says.
pub fn status()
    ensures { SourceRunIsShown }
{}

/// Files have one answer.
pub fn one_interpretation()
    ensures { OneInterpretation }
{}
