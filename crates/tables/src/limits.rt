// What each lent record is judged by, alone: its limits, then its indices and stretches.
ghost use Rattle.std.specs.Prelude.{◌≡◌, Bool};
ghost use Rattle.tables.specs.declared.rows.Sizes.{Sizes};
ghost use Rattle.tables.specs.Load.{value_limits, value_inside, event_limits, event_inside, automaton_limits, automaton_inside, transition_limits, transition_inside, guard_limits, guard_inside, action_limits, action_inside, node_limits, node_inside};
ghost use Rattle.tables.specs.Records.{TypedAs, value_row, event_row, transition_row, action_row};

use crate::records::{Action, EventKind, OutOfLimits, Transition, Value, ValueKind};
use crate::rows::{ActionRow, Automaton, EventRow, Guard, Node, Sizes, TransitionRow, ValueRow};

// How many records each table may have.
pub const MOST_VALUES: usize = 128;

pub const MOST_EVENTS: usize = 64;

pub const MOST_AUTOMATA: usize = 32;

pub const MOST_TRANSITIONS: usize = 512;

pub const MOST_GUARDS: usize = 1024;

pub const MOST_ACTIONS: usize = 1024;

pub const MOST_NODES: usize = 8192;

// How many states an automaton may have.
pub(crate) const MOST_STATES: u16 = 32;

// The code of a node that reads a value, in every expression language. The lent nodes have numbers for codes,
// and what the others stand for is up to the language, so there is no enum of them here.
const READ: u8 = 0;

// A lent record: whole numbers, which stand for a record of a sheet where they keep their limits.
pub trait Row: Copy {
    type Record: Copy;

    // That its fields keep their limits.
    ghost limited: { Self → Bool };

    // The lent record of a loaded one.
    ghost row: { Self.Record → Self };

    // That its indices and stretches lie inside tables of these sizes.
    ghost inside: { Sizes → Self → Bool };

    // The record that it stands for, if its fields keep their limits.
    fn typed(self) -> Result<Self::Record, OutOfLimits>
        ensures { TypedAs limited row self result };

    // Whether the indices and stretches of such a record lie inside tables of these sizes.
    fn lies_inside(typed: Self::Record, sizes: &Sizes) -> bool
        ensures { result ≡ inside sizes.now (row typed) };
}

impl Row for ValueRow {
    type Record = Value;

    ghost limited = { value_limits };

    ghost row = { value_row };

    ghost inside = { value_inside };

    fn typed(self) -> Result<Value, OutOfLimits> {
        Value::try_from(self)
    }

    fn lies_inside(value: Value, sizes: &Sizes) -> bool {
        match value.kind {
            ValueKind::Local { owner } => usize::from(owner) < sizes.automata,
            _ => true,
        }
    }
}

impl Row for EventRow {
    type Record = EventKind;

    ghost limited = { event_limits };

    ghost row = { event_row };

    ghost inside = { event_inside };

    fn typed(self) -> Result<EventKind, OutOfLimits> {
        EventKind::try_from(self)
    }

    fn lies_inside(_kind: EventKind, _sizes: &Sizes) -> bool {
        true
    }
}

impl Row for Automaton {
    type Record = Automaton;

    ghost limited = { automaton_limits };

    ghost row = { λ a. a };

    ghost inside = { automaton_inside };

    fn typed(self) -> Result<Automaton, OutOfLimits> {
        if (1..=MOST_STATES).contains(&self.states) {
            Ok(self)
        } else {
            Err(OutOfLimits)
        }
    }

    fn lies_inside(automaton: Automaton, sizes: &Sizes) -> bool {
        automaton.actions.ends_in(sizes.actions) && automaton.transitions.ends_in(sizes.transitions)
    }
}

impl Row for TransitionRow {
    type Record = Transition;

    ghost limited = { transition_limits };

    ghost row = { transition_row };

    ghost inside = { transition_inside };

    fn typed(self) -> Result<Transition, OutOfLimits> {
        Transition::try_from(self)
    }

    fn lies_inside(transition: Transition, sizes: &Sizes) -> bool {
        usize::from(transition.trigger) < sizes.events
            && transition.guards.ends_in(sizes.guards)
            && transition.actions.ends_in(sizes.actions)
    }
}

impl Row for Guard {
    type Record = Guard;

    ghost limited = { guard_limits };

    ghost row = { λ g. g };

    ghost inside = { guard_inside };

    fn typed(self) -> Result<Guard, OutOfLimits> {
        if self.nodes.is_expression() {
            Ok(self)
        } else {
            Err(OutOfLimits)
        }
    }

    fn lies_inside(guard: Guard, sizes: &Sizes) -> bool {
        guard.nodes.ends_in(sizes.nodes)
    }
}

impl Row for ActionRow {
    type Record = Action;

    ghost limited = { action_limits };

    ghost row = { action_row };

    ghost inside = { action_inside };

    fn typed(self) -> Result<Action, OutOfLimits> {
        Action::try_from(self)
    }

    fn lies_inside(action: Action, sizes: &Sizes) -> bool {
        match action {
            Action::Emit { event } => usize::from(event) < sizes.events,
            Action::Assign { value, nodes } => {
                usize::from(value) < sizes.values && nodes.ends_in(sizes.nodes)
            }
        }
    }
}

impl Row for Node {
    type Record = Node;

    ghost limited = { node_limits };

    ghost row = { λ n. n };

    ghost inside = { node_inside };

    fn typed(self) -> Result<Node, OutOfLimits> {
        Ok(self)
    }

    fn lies_inside(node: Node, sizes: &Sizes) -> bool {
        node.code != READ || usize::try_from(node.argument).is_ok_and(|value| value < sizes.values)
    }
}
