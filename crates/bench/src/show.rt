// Prints a loaded sheet, table by table.
use prefix::Head;
use ranges::Ranges;
use samples::shuttle::Names;
use sheet::{Action, Sheet, ValueKind};
use std::{fmt, io};
use tables::{Node, Stretch};

// The numbers of a stretch, first to last.
#[derive(Clone, Copy)]
struct Numbers(Stretch);

impl fmt::Display for Numbers {
    fn fmt<W: fmt::Write>(&self, f: &mut fmt::Formatter<W>) -> fmt::Result {
        let first = u32::from(self.0.first);
        let count = u32::from(self.0.count);
        match count {
            0 => f.write_str("none"),
            1 => write!(f, "{first}"),
            _ => {
                let last = first + count - 1;
                write!(f, "{first} to {last}")
            }
        }
    }
}

// The name of a record, or a mark where it has none.
fn name<'a>(names: &'a [&'a str], number: usize) -> &'a str {
    names.get(number).copied().unwrap_or("?")
}

// The kind of a value, a local with its owner's name.
#[derive(Clone, Copy)]
struct Role<'a>(ValueKind, &'a [&'a str]);

impl fmt::Display for Role<'_> {
    fn fmt<W: fmt::Write>(&self, f: &mut fmt::Formatter<W>) -> fmt::Result {
        match self.0 {
            ValueKind::Local { owner } => {
                let automaton = name(self.1, usize::from(owner));
                write!(f, "local of {automaton}")
            }
            kind => write!(f, "{kind}"),
        }
    }
}

// A sheet and what its records are called, to be printed.
#[derive(Clone, Copy)]
struct Shown<'a> {
    rt: &'a HostRuntime,
    sheet: &'a Sheet,
    names: Names<'a>,
}

impl Shown<'_> {
    fn node(&self, node: Node) -> io::Result<()> {
        let rt = self.rt;
        match Ranges::head(node) {
            Some(Head::Read(value)) => {
                let read = name(self.names.values, value);
                print!(rt; " {read}")
            }
            Some(head) => print!(rt; " {head}"),
            None => print!(rt; " ?"),
        }
    }

    // An expression in prefix order.
    fn expression(&self, nodes: Stretch) -> io::Result<()> {
        for node in nodes.part(self.sheet.nodes()) {
            self.node(*node)?;
        }
        println!(self.rt; "")
    }

    fn values(&self) -> io::Result<()> {
        let rt = self.rt;
        println!(rt; "values")?;
        for (number, value) in self.sheet.values().iter().enumerate() {
            let called = name(self.names.values, number);
            let role = Role(value.kind, self.names.automata);
            let a = value.a;
            let b = value.b;
            println!(rt; "  {number:>2} {called:<8} {role}, a {a}, b {b}")?;
        }
        Ok(())
    }

    fn events(&self) -> io::Result<()> {
        let rt = self.rt;
        println!(rt; "events")?;
        for (number, kind) in self.sheet.events().iter().enumerate() {
            let called = name(self.names.events, number);
            println!(rt; "  {number:>2} {called:<8} {kind}")?;
        }
        Ok(())
    }

    fn automata(&self) -> io::Result<()> {
        let rt = self.rt;
        println!(rt; "automata")?;
        for (number, automaton) in self.sheet.automata().iter().enumerate() {
            let called = name(self.names.automata, number);
            let states = automaton.states;
            let initial = automaton.initial;
            let actions = Numbers(automaton.actions);
            let transitions = Numbers(automaton.transitions);
            println!(rt;
                "  {number:>2} {called:<8} {states} states from {initial}, initial actions {actions}, transitions {transitions}"
            )?;
        }
        Ok(())
    }

    fn turns(&self) -> io::Result<()> {
        let rt = self.rt;
        print!(rt; "turns")?;
        for turn in self.sheet.turns() {
            let called = name(self.names.automata, usize::from(*turn));
            print!(rt; " {called}")?;
        }
        println!(rt; "")
    }

    fn transitions(&self) -> io::Result<()> {
        let rt = self.rt;
        println!(rt; "transitions")?;
        for (number, transition) in self.sheet.transitions().iter().enumerate() {
            let source = transition.source;
            let destination = transition.destination;
            let trigger = name(self.names.events, usize::from(transition.trigger));
            let urgent = if transition.urgent { ", urgent" } else { "" };
            let guards = Numbers(transition.guards);
            let actions = Numbers(transition.actions);
            println!(rt;
                "  {number:>2} state {source} to {destination} on {trigger}{urgent}, guards {guards}, actions {actions}"
            )?;
        }
        Ok(())
    }

    fn guards(&self) -> io::Result<()> {
        let rt = self.rt;
        println!(rt; "guards")?;
        for (number, guard) in self.sheet.guards().iter().enumerate() {
            print!(rt; "  {number:>2}")?;
            self.expression(guard.nodes)?;
        }
        Ok(())
    }

    fn actions(&self) -> io::Result<()> {
        let rt = self.rt;
        println!(rt; "actions")?;
        for (number, action) in self.sheet.actions().iter().enumerate() {
            match *action {
                Action::Emit { event } => {
                    let event = name(self.names.events, usize::from(event));
                    println!(rt; "  {number:>2} emit {event}")?
                }
                Action::Assign { value, nodes } => {
                    let value = name(self.names.values, usize::from(value));
                    print!(rt; "  {number:>2} {value} :=")?;
                    self.expression(nodes)?
                }
            }
        }
        Ok(())
    }

    fn all(&self) -> io::Result<()> {
        self.values()?;
        self.events()?;
        self.automata()?;
        self.turns()?;
        self.transitions()?;
        self.guards()?;
        self.actions()?;
        let rt = self.rt;
        let nodes = self.sheet.nodes().len();
        println!(rt; "nodes")?;
        println!(rt; "  {nodes}, shown above in the guards and actions")
    }
}

pub fn show_sheet(rt: &HostRuntime, sheet: &Sheet, names: Names) -> io::Result<()> {
    Shown { rt, sheet, names }.all()
}

pub fn show_sizes(rt: &HostRuntime, sheet: &Sheet) -> io::Result<()> {
    let values = sheet.values().len();
    let events = sheet.events().len();
    let automata = sheet.automata().len();
    let transitions = sheet.transitions().len();
    let guards = sheet.guards().len();
    let actions = sheet.actions().len();
    let nodes = sheet.nodes().len();
    println!(rt;
        "  {values} values, {events} events, {automata} automata, {transitions} transitions, {guards} guards, {actions} actions, {nodes} nodes"
    )
}
