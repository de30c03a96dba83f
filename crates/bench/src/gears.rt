// Types: what gear + 1 has under gear 1..3, without a guard and after one.
use guest::Guest;
use ranges::{Range, Ranges};
use std::{fmt, io};
use tables::Node;

const GEAR: Node = Node {
    code: 0,
    argument: 0,
};

const THREE: Node = Node {
    code: 1,
    argument: 3,
};

fn op(code: u8) -> Node {
    Node { code, argument: 0 }
}

// The range that something has, if it has one.
#[derive(Clone, Copy)]
struct Has(Option<Range>);

impl fmt::Display for Has {
    fn fmt<W: fmt::Write>(&self, f: &mut fmt::Formatter<W>) -> fmt::Result {
        match self.0 {
            Some(range) => write!(f, "{range}"),
            None => f.write_str("no type"),
        }
    }
}

fn show_next(rt: &HostRuntime, when: &str, gear: Range) -> io::Result<()> {
    let one = Node {
        code: 1,
        argument: 1,
    };
    let next = Has(Ranges::typed(&[op(2), GEAR, one], &[gear]));
    println!(rt; "  {when}: gear has {gear}, gear + 1 has {next}")
}

fn show_guarded(rt: &HostRuntime, when: &str, guard: &[Node], gear: Range) -> io::Result<()> {
    let mut types = [gear];
    match Ranges::narrow(guard, &mut types) {
        Ok(()) => show_next(rt, when, types[0]),
        Err(why) => println!(rt; "  {when}: {why}"),
    }
}

pub fn show_gears(rt: &HostRuntime) -> io::Result<()> {
    println!(rt; "types under gear 1..3")?;
    let Some(gear) = Ranges::make(1, 3) else {
        return println!(rt; "  1..3 names no type");
    };
    show_next(rt, "with no guard", gear)?;
    show_guarded(rt, "after gear < 3", &[op(18), GEAR, THREE], gear)?;
    // the same the other way round, which narrows nothing
    show_guarded(rt, "after 3 > gear", &[op(20), THREE, GEAR], gear)
}
