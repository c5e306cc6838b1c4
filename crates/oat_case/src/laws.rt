//! Facts about the format alone: each call takes nothing and answers nothing.

ghost use Rattle.std.specs.Prelude.{◌≡◌, ◌↔◌, ℕ, List, Ok};
ghost use Rattle.oat_case.specs.declared.case.Case.{Case};
ghost use Rattle.oat_case.specs.Grammar.{IsCaseText};
ghost use Rattle.oat_case.specs.Laws.{WritesCanBeMade};
ghost use Rattle.oat_case.specs.Reading.{case_of};
ghost use Rattle.oat_case.specs.Simple.{simple_text, simple_case};

/// Reading a text gives a case exactly where the text stands for it.
pub fn grammar()
    ensures { (text : List ℕ) (case : Case) → (case_of text ≡ Ok case) ↔ IsCaseText text case }
{}

/// A text of five lines, and the case that it stands for.
pub fn simple()
    ensures { IsCaseText simple_text simple_case }
{}

/// The writes of a well-formed case lie in data memory, and their places never fall.
pub fn writes_can_be_made()
    ensures { WritesCanBeMade }
{}
