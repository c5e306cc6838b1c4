//! Laws of scripts: each function's contract is the law.

ghost use Rattle.oat_script.specs.Laws.{IdsDiffer};

/// No two devices of a script have one id.
pub fn ids_differ()
    ensures { IdsDiffer }
{}
