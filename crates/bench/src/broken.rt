// Broken variants of the shuttle's sheet: each is refused, and the sheet that was loaded stays.
ghost use Rattle.std.specs.Prelude.{◌<◌};

use samples::shuttle;
use sheet::Sheet;
use std::io;
use tables::{Stretch, TableRow, Tables};

// A sheet that broken tables are tried on.
#[derive(Drop)]
struct Tried<'a> {
    rt: &'a HostRuntime,
    sheet: &'a mut Sheet,
}

impl Tried<'_> {
    fn attempt(&mut self, change: &str, tables: Tables) -> io::Result<()> {
        let rt = self.rt;
        match self.sheet.load(rt.alloc(), &tables) {
            Ok(()) => println!(rt; "  {change}: loaded"),
            Err(why) => {
                let number = why.number();
                println!(rt; "  {change}: refused with {number}, {why}")
            }
        }
    }

    // Tries the shuttle's tables with one record changed by `edit`. The record's place stands beside the records: a closure
    // over the array is beyond the borrow checker, and one over a slice does not know that its places are in it.
    fn vary<R: TableRow, const N: usize, F: FnOnce(&mut R)>(
        &mut self,
        change: &str,
        mut rows: [R; N],
        at: usize,
        edit: F,
    ) -> io::Result<()>
        requires at { at < N }
        requires edit { F.IsAlwaysCallable edit }
    {
        edit(&mut rows[at]);
        self.attempt(change, shuttle::tables().with(&rows))
    }

    fn too_many(&mut self) -> anyhow::Result<()> {
        let values = vec![in self.rt.alloc(); shuttle::VALUES[0]; 129]?;
        self.attempt("129 values", shuttle::tables().with(&values))?;
        Ok(())
    }

    fn values(&mut self) -> io::Result<()> {
        let values = shuttle::VALUES;
        self.vary("the lever has kind 4", values, 0, |lever| lever.kind = 4)?;
        self.vary(
            "the shared gear has owner 1",
            values,
            2,
            |gear| gear.owner = 1,
        )?;
        self.vary(
            "the local fill is owned by automaton 2",
            values,
            6,
            |fill| fill.owner = 2,
        )
    }

    fn events(&mut self) -> io::Result<()> {
        let events = shuttle::EVENTS;
        self.vary(
            "the event ready has kind 3",
            events,
            3,
            |ready| ready.kind = 3,
        )
    }

    fn automata(&mut self) -> io::Result<()> {
        let automata = shuttle::AUTOMATA;
        self.vary(
            "the gear has 33 states",
            automata,
            0,
            |gear| gear.states = 33,
        )?;
        self.vary(
            "the clutch lists one transition past the end",
            automata,
            1,
            |clutch| {
                clutch.transitions.count = 7;
            },
        )?;
        self.vary(
            "the clutch begins in state 3 of 3",
            automata,
            1,
            |clutch| clutch.initial = 3,
        )
    }

    fn transitions(&mut self) -> io::Result<()> {
        let transitions = shuttle::TRANSITIONS;
        self.vary(
            "transition 4 has urgent 2",
            transitions,
            4,
            |row| row.urgent = 2,
        )?;
        self.vary(
            "transition 6 waits for event 4",
            transitions,
            6,
            |row| row.trigger = 4,
        )?;
        self.vary(
            "transition 1 goes to state 3 of 3",
            transitions,
            1,
            |row| row.destination = 3,
        )?;
        self.vary(
            "transition 2 has guards 65535 to 131069",
            transitions,
            2,
            |row| {
                row.guards = Stretch {
                    first: 65535,
                    count: 65535,
                };
            },
        )
    }

    fn guards(&mut self) -> io::Result<()> {
        let guards = shuttle::GUARDS;
        self.vary(
            "guard 4 has no nodes",
            guards,
            4,
            |guard| guard.nodes.count = 0,
        )?;
        self.vary("guard 12 ends one node past the end", guards, 12, |guard| {
            guard.nodes = Stretch {
                first: 58,
                count: 3,
            };
        })
    }

    fn actions(&mut self) -> io::Result<()> {
        let actions = shuttle::ACTIONS;
        self.vary(
            "action 6 emits and has a node",
            actions,
            6,
            |action| action.nodes.count = 1,
        )?;
        self.vary(
            "action 30 assigns value 7",
            actions,
            30,
            |action| action.target = 7,
        )
    }

    fn nodes(&mut self) -> io::Result<()> {
        let nodes = shuttle::NODES;
        self.vary("node 56 reads value 300", nodes, 56, |node| node.code = 0)?;
        self.vary("node 1 reads value -1", nodes, 1, |node| node.argument = -1)
    }

    fn turns(&mut self) -> io::Result<()> {
        let tables = shuttle::tables();
        self.attempt("only the gear has a turn", tables.with_turns(&[0]))?;
        self.attempt("the gear has two turns", tables.with_turns(&[0, 1, 0]))?;
        self.attempt("automaton 65535 has a turn", tables.with_turns(&[0, 65535]))
    }

    // An earlier record's index is judged before a later record's limits.
    fn two_faults(&mut self) -> io::Result<()> {
        let mut transitions = shuttle::TRANSITIONS;
        transitions[2].trigger = 9;
        transitions[3].urgent = 9;
        self.attempt(
            "transition 2 waits for event 9, transition 3 has urgent 9, and there are no turns",
            shuttle::tables().with(&transitions).with_turns(&[]),
        )
    }
}

pub fn show_refusals(rt: &HostRuntime, sheet: &mut Sheet) -> anyhow::Result<()> {
    println!(rt; "broken variants")?;
    let mut tried = Tried { rt, sheet };
    tried.too_many()?;
    tried.values()?;
    tried.events()?;
    tried.automata()?;
    tried.transitions()?;
    tried.guards()?;
    tried.actions()?;
    tried.nodes()?;
    tried.turns()?;
    tried.two_faults()?;
    Ok(())
}
