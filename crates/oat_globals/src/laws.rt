//! Laws of compiled lines on global data and of operations, each the contract of a function that does nothing.
ghost use Rattle.oat_globals.specs.Scalars.{CriticalLoadsLead, CriticalStoresLead, LoadsLead, ReferencesLead, StoresLead};
ghost use Rattle.oat_globals.specs.Operations.{OperationCallsLead, OperationReturnsLead, StartsStand};
ghost use Rattle.oat_globals.specs.Sizes.{GlobalLinesAreInRange, WordsOfGlobalLines};
ghost use Rattle.oat_globals.specs.Worked.{OperationRuns};
ghost use Rattle.oat_globals.specs.Elements.{
  CriticalElementLoadsLead,
  CriticalElementLoadsTrap,
  CriticalElementStoresLead,
  CriticalElementStoresTrap,
  ElementLoadsLead,
  ElementStoresLead,
  ElementsTrap,
};

/// A load of a scalar leads to the next line.
pub fn loads_lead()
    ensures { LoadsLead }
{}

/// A store into a scalar leads to the next line.
pub fn stores_lead()
    ensures { StoresLead }
{}

/// A reference leads to the next line.
pub fn references_lead()
    ensures { ReferencesLead }
{}

/// A load of a critical scalar shows a use of its cell.
pub fn critical_loads_lead()
    ensures { CriticalLoadsLead }
{}

/// A store into a critical scalar shows a define of its cell.
pub fn critical_stores_lead()
    ensures { CriticalStoresLead }
{}

/// A load of an element leads to the next line.
pub fn element_loads_lead()
    ensures { ElementLoadsLead }
{}

/// A store into an element leads to the next line.
pub fn element_stores_lead()
    ensures { ElementStoresLead }
{}

/// Where the number isn't below the length, both trap.
pub fn elements_trap()
    ensures { ElementsTrap }
{}

/// A load of a critical array's element shows a use of its cell.
pub fn critical_element_loads_lead()
    ensures { CriticalElementLoadsLead }
{}

/// A store into one shows a define of its cell.
pub fn critical_element_stores_lead()
    ensures { CriticalElementStoresLead }
{}

/// Where the number isn't below the length, the load traps, and shows nothing.
pub fn critical_element_loads_trap()
    ensures { CriticalElementLoadsTrap }
{}

/// And so does the store.
pub fn critical_element_stores_trap()
    ensures { CriticalElementStoresTrap }
{}

/// Behind the prologue of an operation stands the group that begins it.
pub fn starts_stand()
    ensures { StartsStand }
{}

/// A call of an operation shows its edge and then its begin.
pub fn operation_calls_lead()
    ensures { OperationCallsLead }
{}

/// A return from an operation shows its end and then its edge.
pub fn operation_returns_lead()
    ensures { OperationReturnsLead }
{}

/// The code of each line has so many words.
pub fn words_of_global_lines()
    ensures { WordsOfGlobalLines }
{}

/// The fields of its instructions fit.
pub fn global_lines_are_in_range()
    ensures { GlobalLinesAreInRange }
{}

/// The smallest image with each of these lines runs as its source.
pub fn operation_runs()
    ensures { OperationRuns }
{}
