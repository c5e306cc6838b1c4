//! What a run shows, event by event: windows of a list, the events of a source, and its calls of an operation.
#![tactic(auto)]
