// The sheet that docs/SHEETS.md writes by hand.
use sheet::Sheet;
use tables::{
    ActionRow, Automaton, EventRow, Guard, Node, Stretch, Tables, TransitionRow, ValueRow,
};

const VALUES: [ValueRow; 3] = [
    ValueRow {
        kind: 0,
        owner: 0,
        a: -1,
        b: 8,
    },
    ValueRow {
        kind: 1,
        owner: 0,
        a: 0,
        b: 255,
    },
    ValueRow {
        kind: 3,
        owner: 0,
        a: 1,
        b: 3,
    },
];

const EVENTS: [EventRow; 2] = [EventRow { kind: 0 }, EventRow { kind: 1 }];

const AUTOMATA: [Automaton; 1] = [Automaton {
    states: 1,
    initial: 0,
    actions: Stretch { first: 0, count: 1 },
    transitions: Stretch { first: 0, count: 1 },
}];

const TRANSITIONS: [TransitionRow; 1] = [TransitionRow {
    source: 0,
    destination: 0,
    trigger: 0,
    urgent: 0,
    guards: Stretch { first: 0, count: 2 },
    actions: Stretch { first: 1, count: 3 },
}];

const GUARDS: [Guard; 2] = [
    Guard {
        nodes: Stretch { first: 0, count: 3 },
    },
    Guard {
        nodes: Stretch { first: 3, count: 3 },
    },
];

const ACTIONS: [ActionRow; 4] = [
    ActionRow {
        kind: 1,
        target: 2,
        nodes: Stretch { first: 6, count: 1 },
    },
    ActionRow {
        kind: 1,
        target: 2,
        nodes: Stretch { first: 7, count: 3 },
    },
    ActionRow {
        kind: 1,
        target: 1,
        nodes: Stretch {
            first: 10,
            count: 2,
        },
    },
    ActionRow {
        kind: 0,
        target: 1,
        nodes: Stretch { first: 0, count: 0 },
    },
];

const NODES: [Node; 12] = [
    Node {
        code: 18,
        argument: 0,
    },
    Node {
        code: 0,
        argument: 2,
    },
    Node {
        code: 1,
        argument: 3,
    },
    Node {
        code: 20,
        argument: 0,
    },
    Node {
        code: 0,
        argument: 0,
    },
    Node {
        code: 1,
        argument: 0,
    },
    Node {
        code: 1,
        argument: 1,
    },
    Node {
        code: 2,
        argument: 0,
    },
    Node {
        code: 0,
        argument: 2,
    },
    Node {
        code: 1,
        argument: 1,
    },
    Node {
        code: 9,
        argument: 0,
    },
    Node {
        code: 0,
        argument: 2,
    },
];

#[test]
fn sheet_by_hand(rt: HostRuntime) {
    let tables = Tables {
        values: &VALUES,
        events: &EVENTS,
        automata: &AUTOMATA,
        turns: &[0],
        transitions: &TRANSITIONS,
        guards: &GUARDS,
        actions: &ACTIONS,
        nodes: &NODES,
    };
    let mut sheet = Sheet::empty(rt.alloc());
    assert_eq!(rt; sheet.load(rt.alloc(), &tables), Ok(()));
    assert!(rt;
        sheet.values().len() == 3 && sheet.actions().len() == 4 && sheet.nodes().len() == 12
    );
}
