// The shift sheet of a shuttle gearbox: a lever from reverse (-1) over neutral (0) to gear 8, a gear
// automaton that follows it one gear at a tick, and a clutch automaton that fills the clutch pack after each
// shift. The two talk by the shared event `shift`. Guards and right sides are in the range language.
ghost use Rattle.std.specs.Prelude.{◌≡◌, length};
ghost use Rattle.tables.specs.Answers.{answer, fine};
ghost use Rattle.tables.specs.Load.{judged};
ghost use Rattle.tables.specs.Tables.{lent};

use tables::{
    ActionRow, Automaton, EventRow, Guard, Node, Stretch, Tables, TransitionRow, ValueRow,
};

// What the records of a sheet are called, in the order of their tables. The names stand beside the tables, not in them:
// a sheet is lent as slices of records that have numbers alone.
#[derive(Clone, Copy)]
pub struct Names<'a> {
    pub values: &'a [&'a str],
    pub events: &'a [&'a str],
    pub automata: &'a [&'a str],
}

pub const VALUE_NAMES: [&str; 7] = ["lever", "speed", "gear", "bus", "lamp", "current", "fill"];

pub const EVENT_NAMES: [&str; 4] = ["tick", "stop", "shift", "ready"];

pub const AUTOMATON_NAMES: [&str; 2] = ["gear", "clutch"];

pub const VALUES: [ValueRow; 7] = [
    // 0 lever, where the driver has put it
    ValueRow {
        kind: 0,
        owner: 0,
        a: -1,
        b: 8,
    },
    // 1 speed in km/h
    ValueRow {
        kind: 0,
        owner: 0,
        a: 0,
        b: 60,
    },
    // 2 gear, which the clutch reads
    ValueRow {
        kind: 2,
        owner: 0,
        a: -1,
        b: 8,
    },
    // 3 bus, the gear as an unsigned byte
    ValueRow {
        kind: 1,
        owner: 0,
        a: 0,
        b: 255,
    },
    // 4 lamp for reverse
    ValueRow {
        kind: 1,
        owner: 0,
        a: 0,
        b: 1,
    },
    // 5 current through the clutch valve in mA
    ValueRow {
        kind: 1,
        owner: 0,
        a: 0,
        b: 1000,
    },
    // 6 fill, the clutch's own step of filling
    ValueRow {
        kind: 3,
        owner: 1,
        a: 0,
        b: 3,
    },
];

pub const EVENTS: [EventRow; 4] = [
    // 0 tick
    EventRow { kind: 0 },
    // 1 stop
    EventRow { kind: 0 },
    // 2 shift
    EventRow { kind: 2 },
    // 3 ready
    EventRow { kind: 1 },
];

pub const AUTOMATA: [Automaton; 2] = [
    // 0 gear: neutral 0, forward 1, reverse 2
    Automaton {
        states: 3,
        initial: 0,
        actions: Stretch { first: 0, count: 2 },
        transitions: Stretch { first: 0, count: 7 },
    },
    // 1 clutch: open 0, filling 1, closed 2
    Automaton {
        states: 3,
        initial: 0,
        actions: Stretch { first: 2, count: 2 },
        transitions: Stretch { first: 7, count: 6 },
    },
];

pub const TURNS: [u16; 2] = [0, 1];

pub const TRANSITIONS: [TransitionRow; 13] = [
    // 0 neutral to forward
    TransitionRow {
        source: 0,
        destination: 1,
        trigger: 0,
        urgent: 0,
        guards: Stretch { first: 0, count: 1 },
        actions: Stretch { first: 4, count: 3 },
    },
    // 1 neutral to reverse, at a standstill
    TransitionRow {
        source: 0,
        destination: 2,
        trigger: 0,
        urgent: 0,
        guards: Stretch { first: 1, count: 2 },
        actions: Stretch { first: 7, count: 4 },
    },
    // 2 one gear up
    TransitionRow {
        source: 1,
        destination: 1,
        trigger: 0,
        urgent: 0,
        guards: Stretch { first: 3, count: 2 },
        actions: Stretch {
            first: 11,
            count: 3,
        },
    },
    // 3 one gear down
    TransitionRow {
        source: 1,
        destination: 1,
        trigger: 0,
        urgent: 0,
        guards: Stretch { first: 5, count: 2 },
        actions: Stretch {
            first: 14,
            count: 3,
        },
    },
    // 4 forward to neutral, before any shift down
    TransitionRow {
        source: 1,
        destination: 0,
        trigger: 0,
        urgent: 1,
        guards: Stretch { first: 7, count: 1 },
        actions: Stretch {
            first: 17,
            count: 3,
        },
    },
    // 5 reverse to neutral
    TransitionRow {
        source: 2,
        destination: 0,
        trigger: 0,
        urgent: 0,
        guards: Stretch { first: 8, count: 1 },
        actions: Stretch {
            first: 20,
            count: 4,
        },
    },
    // 6 forward to neutral on stop
    TransitionRow {
        source: 1,
        destination: 0,
        trigger: 1,
        urgent: 1,
        guards: Stretch { first: 0, count: 0 },
        actions: Stretch {
            first: 17,
            count: 3,
        },
    },
    // 7 open to filling
    TransitionRow {
        source: 0,
        destination: 1,
        trigger: 2,
        urgent: 0,
        guards: Stretch { first: 9, count: 1 },
        actions: Stretch {
            first: 24,
            count: 2,
        },
    },
    // 8 closed to filling
    TransitionRow {
        source: 2,
        destination: 1,
        trigger: 2,
        urgent: 0,
        guards: Stretch { first: 9, count: 1 },
        actions: Stretch {
            first: 24,
            count: 2,
        },
    },
    // 9 filling to closed
    TransitionRow {
        source: 1,
        destination: 2,
        trigger: 0,
        urgent: 0,
        guards: Stretch {
            first: 10,
            count: 1,
        },
        actions: Stretch {
            first: 26,
            count: 2,
        },
    },
    // 10 one step of filling
    TransitionRow {
        source: 1,
        destination: 1,
        trigger: 0,
        urgent: 0,
        guards: Stretch {
            first: 11,
            count: 1,
        },
        actions: Stretch {
            first: 28,
            count: 2,
        },
    },
    // 11 closed to open
    TransitionRow {
        source: 2,
        destination: 0,
        trigger: 2,
        urgent: 1,
        guards: Stretch {
            first: 12,
            count: 1,
        },
        actions: Stretch {
            first: 30,
            count: 1,
        },
    },
    // 12 filling to open
    TransitionRow {
        source: 1,
        destination: 0,
        trigger: 2,
        urgent: 1,
        guards: Stretch {
            first: 12,
            count: 1,
        },
        actions: Stretch {
            first: 30,
            count: 1,
        },
    },
];

pub const GUARDS: [Guard; 13] = [
    // 0 lever > 0
    Guard {
        nodes: Stretch { first: 0, count: 3 },
    },
    // 1 lever < 0
    Guard {
        nodes: Stretch { first: 3, count: 3 },
    },
    // 2 speed = 0
    Guard {
        nodes: Stretch { first: 6, count: 3 },
    },
    // 3 lever > gear
    Guard {
        nodes: Stretch { first: 9, count: 3 },
    },
    // 4 gear < 8
    Guard {
        nodes: Stretch {
            first: 12,
            count: 3,
        },
    },
    // 5 lever < gear
    Guard {
        nodes: Stretch {
            first: 15,
            count: 3,
        },
    },
    // 6 gear > 1
    Guard {
        nodes: Stretch {
            first: 18,
            count: 3,
        },
    },
    // 7 lever <= 0
    Guard {
        nodes: Stretch {
            first: 21,
            count: 3,
        },
    },
    // 8 lever >= 0
    Guard {
        nodes: Stretch {
            first: 24,
            count: 3,
        },
    },
    // 9 gear is not 0
    Guard {
        nodes: Stretch {
            first: 27,
            count: 3,
        },
    },
    // 10 fill = 3
    Guard {
        nodes: Stretch {
            first: 30,
            count: 3,
        },
    },
    // 11 fill < 3
    Guard {
        nodes: Stretch {
            first: 33,
            count: 3,
        },
    },
    // 12 gear = 0
    Guard {
        nodes: Stretch {
            first: 36,
            count: 3,
        },
    },
];

// Nodes: operations of the range language, values that are read, and constants.
const GREATER: Node = Node {
    code: 20,
    argument: 0,
};

const LESS: Node = Node {
    code: 18,
    argument: 0,
};

const EQUAL: Node = Node {
    code: 16,
    argument: 0,
};

const NOT_EQUAL: Node = Node {
    code: 17,
    argument: 0,
};

const AT_MOST: Node = Node {
    code: 19,
    argument: 0,
};

const AT_LEAST: Node = Node {
    code: 21,
    argument: 0,
};

const ADD: Node = Node {
    code: 2,
    argument: 0,
};

const SUBTRACT: Node = Node {
    code: 3,
    argument: 0,
};

const MULTIPLY: Node = Node {
    code: 4,
    argument: 0,
};

const BYTE: Node = Node {
    code: 9,
    argument: 0,
};

const LEVER: Node = Node {
    code: 0,
    argument: 0,
};

const SPEED: Node = Node {
    code: 0,
    argument: 1,
};

const GEAR: Node = Node {
    code: 0,
    argument: 2,
};

const FILL: Node = Node {
    code: 0,
    argument: 6,
};

const MINUS_ONE: Node = Node {
    code: 1,
    argument: -1,
};

const ZERO: Node = Node {
    code: 1,
    argument: 0,
};

const ONE: Node = Node {
    code: 1,
    argument: 1,
};

const THREE: Node = Node {
    code: 1,
    argument: 3,
};

const EIGHT: Node = Node {
    code: 1,
    argument: 8,
};

const TWO_HUNDRED: Node = Node {
    code: 1,
    argument: 200,
};

const THREE_HUNDRED: Node = Node {
    code: 1,
    argument: 300,
};

const THOUSAND: Node = Node {
    code: 1,
    argument: 1000,
};

// The expressions, one after the other; each comment begins with the number of its first node.
pub const NODES: [Node; 60] = [
    // 0 lever > 0
    GREATER,
    LEVER,
    ZERO,
    // 3 lever < 0
    LESS,
    LEVER,
    ZERO,
    // 6 speed = 0
    EQUAL,
    SPEED,
    ZERO,
    // 9 lever > gear
    GREATER,
    LEVER,
    GEAR,
    // 12 gear < 8
    LESS,
    GEAR,
    EIGHT,
    // 15 lever < gear
    LESS,
    LEVER,
    GEAR,
    // 18 gear > 1
    GREATER,
    GEAR,
    ONE,
    // 21 lever <= 0
    AT_MOST,
    LEVER,
    ZERO,
    // 24 lever >= 0
    AT_LEAST,
    LEVER,
    ZERO,
    // 27 gear is not 0
    NOT_EQUAL,
    GEAR,
    ZERO,
    // 30 fill = 3
    EQUAL,
    FILL,
    THREE,
    // 33 fill < 3
    LESS,
    FILL,
    THREE,
    // 36 gear = 0
    EQUAL,
    GEAR,
    ZERO,
    // 39 constants 0, 1 and -1
    ZERO,
    ONE,
    MINUS_ONE,
    // 42 gear + 1
    ADD,
    GEAR,
    ONE,
    // 45 gear - 1
    SUBTRACT,
    GEAR,
    ONE,
    // 48 the gear's byte
    BYTE,
    GEAR,
    // 50 constants 300 and 1000
    THREE_HUNDRED,
    THOUSAND,
    // 52 fill + 1
    ADD,
    FILL,
    ONE,
    // 55 300 + fill * 200
    ADD,
    THREE_HUNDRED,
    MULTIPLY,
    FILL,
    TWO_HUNDRED,
];

// What an action does: gear, bus, lamp, current and fill are assigned, shift and ready are emitted.
const GEAR_NEUTRAL: ActionRow = ActionRow {
    kind: 1,
    target: 2,
    nodes: Stretch {
        first: 39,
        count: 1,
    },
};

const GEAR_FIRST: ActionRow = ActionRow {
    kind: 1,
    target: 2,
    nodes: Stretch {
        first: 40,
        count: 1,
    },
};

const GEAR_REVERSE: ActionRow = ActionRow {
    kind: 1,
    target: 2,
    nodes: Stretch {
        first: 41,
        count: 1,
    },
};

const GEAR_UP: ActionRow = ActionRow {
    kind: 1,
    target: 2,
    nodes: Stretch {
        first: 42,
        count: 3,
    },
};

const GEAR_DOWN: ActionRow = ActionRow {
    kind: 1,
    target: 2,
    nodes: Stretch {
        first: 45,
        count: 3,
    },
};

const BUS_CLEAR: ActionRow = ActionRow {
    kind: 1,
    target: 3,
    nodes: Stretch {
        first: 39,
        count: 1,
    },
};

const BUS_GEAR: ActionRow = ActionRow {
    kind: 1,
    target: 3,
    nodes: Stretch {
        first: 48,
        count: 2,
    },
};

const LAMP_OFF: ActionRow = ActionRow {
    kind: 1,
    target: 4,
    nodes: Stretch {
        first: 39,
        count: 1,
    },
};

const LAMP_ON: ActionRow = ActionRow {
    kind: 1,
    target: 4,
    nodes: Stretch {
        first: 40,
        count: 1,
    },
};

const CURRENT_OFF: ActionRow = ActionRow {
    kind: 1,
    target: 5,
    nodes: Stretch {
        first: 39,
        count: 1,
    },
};

const CURRENT_LOW: ActionRow = ActionRow {
    kind: 1,
    target: 5,
    nodes: Stretch {
        first: 50,
        count: 1,
    },
};

const CURRENT_FULL: ActionRow = ActionRow {
    kind: 1,
    target: 5,
    nodes: Stretch {
        first: 51,
        count: 1,
    },
};

const CURRENT_RISES: ActionRow = ActionRow {
    kind: 1,
    target: 5,
    nodes: Stretch {
        first: 55,
        count: 5,
    },
};

const FILL_NONE: ActionRow = ActionRow {
    kind: 1,
    target: 6,
    nodes: Stretch {
        first: 39,
        count: 1,
    },
};

const FILL_MORE: ActionRow = ActionRow {
    kind: 1,
    target: 6,
    nodes: Stretch {
        first: 52,
        count: 3,
    },
};

const EMIT_SHIFT: ActionRow = ActionRow {
    kind: 0,
    target: 2,
    nodes: Stretch { first: 0, count: 0 },
};

const EMIT_READY: ActionRow = ActionRow {
    kind: 0,
    target: 3,
    nodes: Stretch { first: 0, count: 0 },
};

// The lists of actions; each comment begins with the number of its first action.
pub const ACTIONS: [ActionRow; 31] = [
    // 0 the gear's initial actions
    GEAR_NEUTRAL,
    BUS_CLEAR,
    // 2 the clutch's initial actions
    CURRENT_OFF,
    FILL_NONE,
    // 4 to forward
    GEAR_FIRST,
    BUS_GEAR,
    EMIT_SHIFT,
    // 7 to reverse
    GEAR_REVERSE,
    BUS_GEAR,
    LAMP_ON,
    EMIT_SHIFT,
    // 11 up
    GEAR_UP,
    BUS_GEAR,
    EMIT_SHIFT,
    // 14 down
    GEAR_DOWN,
    BUS_GEAR,
    EMIT_SHIFT,
    // 17 forward to neutral
    GEAR_NEUTRAL,
    BUS_GEAR,
    EMIT_SHIFT,
    // 20 reverse to neutral
    GEAR_NEUTRAL,
    BUS_GEAR,
    LAMP_OFF,
    EMIT_SHIFT,
    // 24 filling begins
    FILL_NONE,
    CURRENT_LOW,
    // 26 the clutch is closed
    CURRENT_FULL,
    EMIT_READY,
    // 28 one step of filling
    FILL_MORE,
    CURRENT_RISES,
    // 30 the clutch opens
    CURRENT_OFF,
];

// The sheet's tables. They are allowed, so only want of memory refuses them.
pub fn tables() -> Tables<'static>
    ensures { answer (judged (lent result)) ≡ fine }
{
    Tables {
        values: &VALUES,
        events: &EVENTS,
        automata: &AUTOMATA,
        turns: &TURNS,
        transitions: &TRANSITIONS,
        guards: &GUARDS,
        actions: &ACTIONS,
        nodes: &NODES,
    }
}

// A name for each value, event and automaton.
pub fn called() -> Names<'static>
    ensures values { length result.values.now ≡ 7 }
    ensures events { length result.events.now ≡ 4 }
    ensures automata { length result.automata.now ≡ 2 }
{
    Names {
        values: &VALUE_NAMES,
        events: &EVENT_NAMES,
        automata: &AUTOMATON_NAMES,
    }
}
