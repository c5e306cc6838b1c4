//! Laws of `build`.

ghost use Rattle.oat_tool.specs.BuildLaws.{BuildIsShown, OneBuildRefusal};

/// What its status says.
pub fn status()
    ensures { BuildIsShown }
{}

/// A file has one answer, but for which image of its program it is.
pub fn one_refusal()
    ensures { OneBuildRefusal }
{}
