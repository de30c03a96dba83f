// Tables that differ from others in one table.
ghost use Rattle.std.specs.Prelude.{◌≡◌, List};
ghost use Rattle.tables.specs.Tables.{Lent, lent, with_values, with_events, with_automata, with_transitions, with_guards, with_actions, with_nodes, with_turns};

use crate::rows::{ActionRow, Automaton, EventRow, Guard, Node, Tables, TransitionRow, ValueRow};

// A record that has a table of its own among the lent ones. Its impls are alike but for the field that each of them names.
pub trait TableRow: Copy {
    // The tables with these records in that table.
    ghost put: { List Self → Lent → Lent };

    fn put<'a>(rows: &'a [Self], tables: Tables<'a>) -> Tables<'a>
        ensures { lent result ≡ put rows.now (lent tables.entry) };
}

impl<'a> Tables<'a> {
    // The same tables but for the records of one kind.
    pub fn with<R: TableRow>(self, rows: &'a [R]) -> Tables<'a>
        ensures { lent result ≡ R.TableRow.put rows.now (lent self.entry) }
    {
        R::put(rows, self)
    }

    // The same tables but for the turn list.
    pub fn with_turns(self, turns: &'a [u16]) -> Tables<'a>
        ensures { lent result ≡ with_turns turns.now (lent self.entry) }
    {
        Tables { turns, ..self }
    }
}

impl TableRow for ValueRow {
    ghost put = { with_values };

    fn put<'a>(values: &'a [ValueRow], tables: Tables<'a>) -> Tables<'a> {
        Tables { values, ..tables }
    }
}

impl TableRow for EventRow {
    ghost put = { with_events };

    fn put<'a>(events: &'a [EventRow], tables: Tables<'a>) -> Tables<'a> {
        Tables { events, ..tables }
    }
}

impl TableRow for Automaton {
    ghost put = { with_automata };

    fn put<'a>(automata: &'a [Automaton], tables: Tables<'a>) -> Tables<'a> {
        Tables { automata, ..tables }
    }
}

impl TableRow for TransitionRow {
    ghost put = { with_transitions };

    fn put<'a>(transitions: &'a [TransitionRow], tables: Tables<'a>) -> Tables<'a> {
        Tables {
            transitions,
            ..tables
        }
    }
}

impl TableRow for Guard {
    ghost put = { with_guards };

    fn put<'a>(guards: &'a [Guard], tables: Tables<'a>) -> Tables<'a> {
        Tables { guards, ..tables }
    }
}

impl TableRow for ActionRow {
    ghost put = { with_actions };

    fn put<'a>(actions: &'a [ActionRow], tables: Tables<'a>) -> Tables<'a> {
        Tables { actions, ..tables }
    }
}

impl TableRow for Node {
    ghost put = { with_nodes };

    fn put<'a>(nodes: &'a [Node], tables: Tables<'a>) -> Tables<'a> {
        Tables { nodes, ..tables }
    }
}
