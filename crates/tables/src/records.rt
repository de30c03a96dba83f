// The records of a loaded sheet: what the numbers of a lent record stand for, where its fields keep their limits.
ghost use Rattle.tables.specs.Load.{value_limits, event_limits, transition_limits, action_limits};
ghost use Rattle.tables.specs.Records.{TypedAs, value_row, event_row, transition_row, action_row};

use crate::limits::MOST_STATES;
use crate::rows::{ActionRow, EventRow, Stretch, TransitionRow, ValueRow};
use std::error::Error;
use std::fmt;

#[derive(Clone, Copy, PartialEq, Eq, Debug)]
pub enum ValueKind {
    Input,
    Output,
    Shared,
    // Read and assigned by its owner alone.
    Local { owner: u16 },
}

#[derive(Clone, Copy, PartialEq, Eq, Debug)]
pub struct Value {
    pub kind: ValueKind,
    pub a: i32,
    pub b: i32,
}

#[derive(Clone, Copy, PartialEq, Eq, Debug)]
pub enum EventKind {
    Input,
    Output,
    Shared,
}

#[derive(Clone, Copy, PartialEq, Eq, Debug)]
pub struct Transition {
    pub source: u16,
    pub destination: u16,
    pub trigger: u16,
    pub urgent: bool,
    pub guards: Stretch,
    pub actions: Stretch,
}

#[derive(Clone, Copy, PartialEq, Eq, Debug)]
pub enum Action {
    Emit { event: u16 },
    Assign { value: u16, nodes: Stretch },
}

impl fmt::Display for ValueKind {
    fn fmt<W: fmt::Write>(&self, f: &mut fmt::Formatter<W>) -> fmt::Result {
        match self {
            ValueKind::Input => f.write_str("input"),
            ValueKind::Output => f.write_str("output"),
            ValueKind::Shared => f.write_str("shared"),
            ValueKind::Local { owner } => write!(f, "local of automaton {owner}"),
        }
    }
}

impl fmt::Display for EventKind {
    fn fmt<W: fmt::Write>(&self, f: &mut fmt::Formatter<W>) -> fmt::Result {
        f.write_str(match self {
            EventKind::Input => "input",
            EventKind::Output => "output",
            EventKind::Shared => "shared",
        })
    }
}

// A field of a lent record leaves its limits, so the record stands for nothing.
#[derive(Clone, Copy, PartialEq, Eq, Debug)]
pub struct OutOfLimits;

impl fmt::Display for OutOfLimits {
    fn fmt<W: fmt::Write>(&self, f: &mut fmt::Formatter<W>) -> fmt::Result {
        f.write_str("a field leaves its limits")
    }
}

impl Error for OutOfLimits {}

impl TryFrom<ValueRow> for Value {
    type Error = OutOfLimits;

    ghost try_from_gives = { TypedAs value_limits value_row };

    fn try_from(row: ValueRow) -> Result<Value, OutOfLimits> {
        let kind = match (row.kind, row.owner) {
            (0, 0) => ValueKind::Input,
            (1, 0) => ValueKind::Output,
            (2, 0) => ValueKind::Shared,
            (3, owner) => ValueKind::Local { owner },
            _ => return Err(OutOfLimits),
        };
        Ok(Value {
            kind,
            a: row.a,
            b: row.b,
        })
    }
}

impl TryFrom<EventRow> for EventKind {
    type Error = OutOfLimits;

    ghost try_from_gives = { TypedAs event_limits event_row };

    fn try_from(row: EventRow) -> Result<EventKind, OutOfLimits> {
        match row.kind {
            0 => Ok(EventKind::Input),
            1 => Ok(EventKind::Output),
            2 => Ok(EventKind::Shared),
            _ => Err(OutOfLimits),
        }
    }
}

impl TryFrom<TransitionRow> for Transition {
    type Error = OutOfLimits;

    ghost try_from_gives = { TypedAs transition_limits transition_row };

    fn try_from(row: TransitionRow) -> Result<Transition, OutOfLimits> {
        if row.source >= MOST_STATES || row.destination >= MOST_STATES || row.urgent > 1 {
            return Err(OutOfLimits);
        }
        Ok(Transition {
            source: row.source,
            destination: row.destination,
            trigger: row.trigger,
            urgent: row.urgent == 1,
            guards: row.guards,
            actions: row.actions,
        })
    }
}

impl TryFrom<ActionRow> for Action {
    type Error = OutOfLimits;

    ghost try_from_gives = { TypedAs action_limits action_row };

    fn try_from(row: ActionRow) -> Result<Action, OutOfLimits> {
        match row.kind {
            0 if row.nodes == Stretch::NONE => Ok(Action::Emit { event: row.target }),
            1 if row.nodes.is_expression() => Ok(Action::Assign {
                value: row.target,
                nodes: row.nodes,
            }),
            _ => Err(OutOfLimits),
        }
    }
}
