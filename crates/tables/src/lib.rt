// The tables of a shift sheet as a caller lends them, and the judgement on them.
#![tactic(auto)]

mod judgement;
mod limits;
mod records;
mod refusal;
mod rows;
mod stretches;
mod variants;

pub use judgement::judge;
pub use limits::{
    MOST_ACTIONS, MOST_AUTOMATA, MOST_EVENTS, MOST_GUARDS, MOST_NODES, MOST_TRANSITIONS,
    MOST_VALUES,
};
pub use records::{Action, EventKind, OutOfLimits, Transition, Value, ValueKind};
pub use refusal::{LoadRefusal, Table};
pub use rows::{
    ActionRow, Automaton, EventRow, Guard, Node, Sizes, Stretch, Tables, TransitionRow, ValueRow,
};
pub use variants::TableRow;
