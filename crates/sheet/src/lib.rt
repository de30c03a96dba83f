// Loaded shift sheets: typed records, and the invariant that every number lies inside its table.
#![tactic(auto)]

mod loaded;
mod records;

pub use loaded::Sheet;
pub use tables::{Action, EventKind, Transition, Value, ValueKind};
