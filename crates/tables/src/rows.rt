// The tables that a caller lends to `load`. Every field is a whole number and may hold anything:
// nothing is known of a lent table until it has been judged. The fields stay numbers, kinds among them: sheets are lent
// as tables of whole numbers. `records.rt` has what the numbers stand for.
ghost use Rattle.std.specs.Prelude.{◌≡◌};
ghost use Rattle.tables.specs.Tables.{lent, sizes as sizes_of};

// A stretch of a table: `count` records from number `first` on. It stays two numbers, and no list of its own: sheets are
// lent and handed out table by table, and records may share a stretch.
#[derive(Clone, Copy, PartialEq, Eq, Debug)]
pub struct Stretch {
    pub first: u16,
    pub count: u16,
}

// A value that the shift logic reads or assigns. Kind is 0 input, 1 output, 2 shared, 3 local.
// The owner is the automaton of a local and 0 for every other kind.
// The expression language in use makes the type from `a` and `b`.
#[derive(Clone, Copy, PartialEq, Eq, Debug)]
pub struct ValueRow {
    pub kind: u16,
    pub owner: u16,
    pub a: i32,
    pub b: i32,
}

// An event. Kind is 0 input, 1 output, 2 shared.
#[derive(Clone, Copy, PartialEq, Eq, Debug)]
pub struct EventRow {
    pub kind: u16,
}

// An automaton with `states` states: its initial state, its initial actions and its transitions.
// It is the same record in a loaded sheet.
#[derive(Clone, Copy, PartialEq, Eq, Debug)]
pub struct Automaton {
    pub states: u16,
    pub initial: u16,
    pub actions: Stretch,
    pub transitions: Stretch,
}

// A transition from state `source` to state `destination` on the event `trigger`. Urgent is 1 or 0. The loaded
// `Transition` has another type in that field alone; a record generic in it would need two names all the same.
#[derive(Clone, Copy, PartialEq, Eq, Debug)]
pub struct TransitionRow {
    pub source: u16,
    pub destination: u16,
    pub trigger: u16,
    pub urgent: u16,
    pub guards: Stretch,
    pub actions: Stretch,
}

// A guard: the nodes of its expression. It is the same record in a loaded sheet.
#[derive(Clone, Copy, PartialEq, Eq, Debug)]
pub struct Guard {
    pub nodes: Stretch,
}

// An action. Kind 0 emits event `target` and has the empty stretch at 0;
// kind 1 assigns to value `target` what the expression gives.
#[derive(Clone, Copy, PartialEq, Eq, Debug)]
pub struct ActionRow {
    pub kind: u16,
    pub target: u16,
    pub nodes: Stretch,
}

// A node of an expression in prefix order. Code 0 reads the value that the argument names;
// what every other code means is up to the expression language. It is the same record in a loaded sheet.
#[derive(Clone, Copy, PartialEq, Eq, Debug)]
pub struct Node {
    pub code: u8,
    pub argument: i32,
}

// The lent tables of one sheet. A record's number is its place in its table, from 0.
// A turn is an automaton's number: the automata react in the order of the turns.
#[derive(Clone, Copy)]
pub struct Tables<'a> {
    pub values: &'a [ValueRow],
    pub events: &'a [EventRow],
    pub automata: &'a [Automaton],
    pub turns: &'a [u16],
    pub transitions: &'a [TransitionRow],
    pub guards: &'a [Guard],
    pub actions: &'a [ActionRow],
    pub nodes: &'a [Node],
}

// How many records each table has.
#[derive(Clone, Copy, PartialEq, Eq, Debug)]
pub struct Sizes {
    pub values: usize,
    pub events: usize,
    pub automata: usize,
    pub transitions: usize,
    pub guards: usize,
    pub actions: usize,
    pub nodes: usize,
}

impl Tables<'_> {
    pub fn sizes(&self) -> Sizes
        ensures { result ≡ sizes_of (lent self.now) }
    {
        Sizes {
            values: self.values.len(),
            events: self.events.len(),
            automata: self.automata.len(),
            transitions: self.transitions.len(),
            guards: self.guards.len(),
            actions: self.actions.len(),
            nodes: self.nodes.len(),
        }
    }
}
