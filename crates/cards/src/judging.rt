// The judgement at the edges of each limit and each table.
use crate::base::*;
use tables::{
    ActionRow, Automaton, EventRow, Guard, LoadRefusal, Node, Stretch, TransitionRow, ValueRow,
    judge,
};

#[test]
fn base_is_fine(rt: HostRuntime) {
    assert_eq!(rt; judge(&base()), Ok(()));
}

#[test]
fn no_records_are_fine(rt: HostRuntime) {
    assert_eq!(rt; judge(&nothing()), Ok(()));
}

#[test]
fn value_edges(rt: HostRuntime) {
    // kind, owner, answer; there is one automaton
    let cases: [(u16, u16, u8); 9] = [
        (0, 0, 0),
        (1, 0, 0),
        (2, 0, 0),
        (3, 0, 0),
        (4, 0, 2),
        (65535, 0, 2),
        (2, 1, 2),
        (3, 1, 3),
        (3, 65535, 3),
    ];
    for (kind, owner, answer) in cases {
        let values = [
            VALUES[0],
            ValueRow {
                kind,
                owner,
                a: 0,
                b: 0,
            },
        ];
        assert_eq!(rt; number(&base().with(&values)), answer);
    }
}

#[test]
fn event_edges(rt: HostRuntime) {
    let cases: [(u16, u8); 5] = [(0, 0), (1, 0), (2, 0), (3, 2), (65535, 2)];
    for (kind, answer) in cases {
        let events = [EVENTS[0], EventRow { kind }];
        assert_eq!(rt; number(&base().with(&events)), answer);
    }
}

#[test]
fn automaton_edges(rt: HostRuntime) {
    // states, initial state, answer
    let cases: [(u16, u16, u8); 8] = [
        (0, 0, 2),
        (1, 0, 0),
        (1, 1, 3),
        (32, 31, 0),
        (32, 32, 3),
        (33, 0, 2),
        (65535, 0, 2),
        (32, 65535, 3),
    ];
    for (states, initial, answer) in cases {
        let automata = [Automaton {
            states,
            initial,
            actions: Stretch::NONE,
            transitions: Stretch::NONE,
        }];
        assert_eq!(rt; number(&base().with(&automata)), answer);
    }
}

#[test]
fn transition_edges(rt: HostRuntime) {
    let automata = [Automaton {
        states: 32,
        ..AUTOMATA[0]
    }];
    // source, destination, trigger, urgent, answer; there are two events
    let cases: [(u16, u16, u16, u16, u8); 9] = [
        (31, 0, 0, 0, 0),
        (32, 0, 0, 0, 2),
        (0, 31, 0, 0, 0),
        (0, 32, 0, 0, 2),
        (0, 0, 1, 0, 0),
        (0, 0, 2, 0, 3),
        (0, 0, 65535, 0, 3),
        (0, 0, 0, 1, 0),
        (0, 0, 0, 2, 2),
    ];
    for (source, destination, trigger, urgent, answer) in cases {
        let transitions = [TransitionRow {
            source,
            destination,
            trigger,
            urgent,
            ..TRANSITIONS[0]
        }];
        assert_eq!(rt; number(&base().with(&automata).with(&transitions)), answer);
    }
}

// Stretches of a table of two records.
const STRETCHES: [(u16, u16, u8); 7] = [
    (0, 2, 0),
    (1, 1, 0),
    (2, 0, 0),
    (1, 2, 3),
    (3, 0, 3),
    (65535, 1, 3),
    (65535, 65535, 3),
];

#[test]
fn automaton_stretches(rt: HostRuntime) {
    let transitions = [TRANSITIONS[0], TRANSITIONS[0]];
    for (first, count, answer) in STRETCHES {
        let part = Stretch { first, count };
        let automata = [Automaton {
            actions: part,
            ..AUTOMATA[0]
        }];
        assert_eq!(rt; number(&base().with(&automata)), answer);
        let automata = [Automaton {
            transitions: part,
            ..AUTOMATA[0]
        }];
        assert_eq!(rt; number(&base().with(&automata).with(&transitions)), answer);
    }
}

#[test]
fn transition_stretches(rt: HostRuntime) {
    let guards = [GUARDS[0], GUARDS[0]];
    for (first, count, answer) in STRETCHES {
        let part = Stretch { first, count };
        let transitions = [TransitionRow {
            guards: part,
            ..TRANSITIONS[0]
        }];
        assert_eq!(rt; number(&base().with(&transitions).with(&guards)), answer);
        let transitions = [TransitionRow {
            actions: part,
            ..TRANSITIONS[0]
        }];
        assert_eq!(rt; number(&base().with(&transitions)), answer);
    }
}

#[test]
fn expression_edges(rt: HostRuntime) {
    let nodes = [NODES[2]; 33];
    // first and count of nodes, answer; there are 33 nodes
    let cases: [(u16, u16, u8); 9] = [
        (0, 0, 2),
        (0, 1, 0),
        (0, 32, 0),
        (0, 33, 2),
        (1, 32, 0),
        (2, 32, 3),
        (33, 1, 3),
        (65535, 32, 3),
        (65535, 33, 2),
    ];
    for (first, count, answer) in cases {
        let part = Stretch { first, count };
        let actions = [
            ActionRow {
                nodes: part,
                ..ACTIONS[0]
            },
            ACTIONS[1],
        ];
        assert_eq!(rt;
            number(&base().with(&[Guard { nodes: part }]).with(&nodes)),
            answer
        );
        assert_eq!(rt; number(&base().with(&actions).with(&nodes)), answer);
    }
}

#[test]
fn action_edges(rt: HostRuntime) {
    // kind, target, first and count of nodes, answer; there are two events, two values and four nodes
    let cases: [(u16, u16, u16, u16, u8); 9] = [
        (0, 1, 0, 0, 0),
        (0, 2, 0, 0, 3),
        (0, 65535, 0, 0, 3),
        (0, 0, 1, 0, 2),
        (0, 0, 0, 1, 2),
        (1, 1, 0, 1, 0),
        (1, 2, 0, 1, 3),
        (2, 0, 0, 1, 2),
        (65535, 0, 0, 0, 2),
    ];
    for (kind, target, first, count, answer) in cases {
        let actions = [
            ACTIONS[0],
            ActionRow {
                kind,
                target,
                nodes: Stretch { first, count },
            },
        ];
        assert_eq!(rt; number(&base().with(&actions)), answer);
    }
}

#[test]
fn node_edges(rt: HostRuntime) {
    // code, argument, answer; there are two values
    let cases: [(u8, i32, u8); 8] = [
        (0, 0, 0),
        (0, 1, 0),
        (0, 2, 3),
        (0, -1, 3),
        (0, i32::MAX, 3),
        (0, i32::MIN, 3),
        (1, i32::MIN, 0),
        (255, -1, 0),
    ];
    for (code, argument, answer) in cases {
        let nodes = [NODES[0], NODES[1], NODES[2], Node { code, argument }];
        assert_eq!(rt; number(&base().with(&nodes)), answer);
    }
}

// Automata that lean on no other table.
static TWO: [Automaton; 2] = [Automaton {
    states: 1,
    initial: 0,
    actions: Stretch::NONE,
    transitions: Stretch::NONE,
}; 2];

// Turn lists of two automata, and their answers.
static TURNS: [(&[u16], u8); 8] = [
    (&[0, 1], 0),
    (&[1, 0], 0),
    (&[], 4),
    (&[1], 4),
    (&[1, 1], 4),
    (&[0, 1, 0], 4),
    (&[0, 2], 4),
    (&[0, 65535], 4),
];

#[test]
fn turn_edges(rt: HostRuntime) {
    let two = base().with(&TWO);
    for &(turns, answer) in &TURNS {
        assert_eq!(rt; number(&two.with_turns(turns)), answer);
    }
    assert_eq!(rt;
        judge(&two.with_turns(&[0; 70000])),
        Err(LoadRefusal::Turns)
    );
}
