// A small allowed sheet that the tests vary, with one of each kind of record.
use tables::{
    ActionRow, Automaton, EventRow, Guard, Node, Stretch, Tables, TransitionRow, ValueRow, judge,
};

pub const VALUES: [ValueRow; 2] = [
    ValueRow {
        kind: 0,
        owner: 0,
        a: 0,
        b: 9,
    },
    ValueRow {
        kind: 3,
        owner: 0,
        a: 0,
        b: 9,
    },
];

pub const EVENTS: [EventRow; 2] = [EventRow { kind: 0 }, EventRow { kind: 1 }];

pub const AUTOMATA: [Automaton; 1] = [Automaton {
    states: 2,
    initial: 1,
    actions: Stretch { first: 0, count: 1 },
    transitions: Stretch { first: 0, count: 1 },
}];

pub const TRANSITIONS: [TransitionRow; 1] = [TransitionRow {
    source: 0,
    destination: 1,
    trigger: 0,
    urgent: 0,
    guards: Stretch { first: 0, count: 1 },
    actions: Stretch { first: 0, count: 2 },
}];

pub const GUARDS: [Guard; 1] = [Guard {
    nodes: Stretch { first: 0, count: 3 },
}];

pub const ACTIONS: [ActionRow; 2] = [
    ActionRow {
        kind: 1,
        target: 1,
        nodes: Stretch { first: 3, count: 1 },
    },
    ActionRow {
        kind: 0,
        target: 1,
        nodes: Stretch::NONE,
    },
];

pub const NODES: [Node; 4] = [
    Node {
        code: 16,
        argument: 0,
    },
    Node {
        code: 0,
        argument: 0,
    },
    Node {
        code: 1,
        argument: 3,
    },
    Node {
        code: 1,
        argument: 5,
    },
];

pub fn base() -> Tables<'static> {
    Tables {
        values: &VALUES,
        events: &EVENTS,
        automata: &AUTOMATA,
        turns: &[0],
        transitions: &TRANSITIONS,
        guards: &GUARDS,
        actions: &ACTIONS,
        nodes: &NODES,
    }
}

// Tables with no records.
pub fn nothing() -> Tables<'static> {
    Tables {
        values: &[],
        events: &[],
        automata: &[],
        turns: &[],
        transitions: &[],
        guards: &[],
        actions: &[],
        nodes: &[],
    }
}

// The number that a judgement answers: 0 where it is fine, as in the definition `answer`. The tests' cases are written
// with these numbers.
pub fn number(tables: &Tables) -> u8 {
    match judge(tables) {
        Ok(()) => 0,
        Err(why) => why.number(),
    }
}
