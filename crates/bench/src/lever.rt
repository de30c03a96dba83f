// The lever as a signed number and by byte. Reverse is -1 on the bus and 255 as an unsigned byte, and the two compare
// differently: every position of a signed byte goes through a guard and a right side of the sheet, both ways.
use guest::{Guest, Reason};
use prefix::Head;
use ranges::{Byte, Ranges};
use sheet::{Action, Sheet};
use std::alloc::{AllocError, Global};
use std::{fmt, io};
use tables::Node;

const LEVER: usize = 0;

const GEAR: usize = 2;

// Guard 1, by which the sheet goes into reverse: less lever 0.
const INTO_REVERSE: usize = 1;

// Action 8, by which it then tells the bus: bus := byte gear.
const TELL_BUS: usize = 8;

const BYTE: Node = Node {
    code: 9,
    argument: 0,
};

// The nodes of a guard of the sheet.
fn guard_nodes(sheet: &Sheet, guard: usize) -> &[Node] {
    match sheet.guards().get(guard) {
        Some(guard) => guard.nodes.part(sheet.nodes()),
        None => &[],
    }
}

// The nodes of the right side of an action of the sheet; none for one that emits.
fn right_nodes(sheet: &Sheet, action: usize) -> &[Node] {
    match sheet.actions().get(action) {
        Some(Action::Assign { nodes, .. }) => nodes.part(sheet.nodes()),
        _ => &[],
    }
}

// An expression without its byte nodes, and with these nodes before every read.
fn read_after(heap: Global, before: &[Node], nodes: &[Node]) -> Result<Vec<Node>, AllocError> {
    let mut all = Vec::new(heap);
    for node in nodes {
        match Ranges::head(*node) {
            Some(Head::Unary(Byte)) => {}
            Some(Head::Read(_)) => {
                all.extend_from_slice(before)?;
                all.push(*node)?;
            }
            _ => all.push(*node)?,
        }
    }
    Ok(all)
}

// A guard's answer in a word.
fn word(verdict: Result<bool, Reason>) -> &'static str {
    match verdict {
        Ok(true) => "yes",
        Ok(false) => "no",
        Err(_) => "stuck",
    }
}

// A right side's answer.
#[derive(Clone, Copy)]
struct Given(Result<i32, Reason>);

impl fmt::Display for Given {
    fn fmt<W: fmt::Write>(&self, f: &mut fmt::Formatter<W>) -> fmt::Result {
        match self.0 {
            Ok(value) => write!(f, "{value}"),
            Err(why) => write!(f, "stuck, {why}"),
        }
    }
}

// An expression both ways: with every value read as a signed number, and with every value read by its byte.
#[derive(Drop)]
struct Ways {
    signed: Vec<Node>,
    byte: Vec<Node>,
}

impl Ways {
    fn of(heap: Global, nodes: &[Node]) -> Result<Ways, AllocError> {
        let signed = read_after(heap, &[], nodes)?;
        let byte = read_after(heap, &[BYTE], nodes)?;
        Ok(Ways { signed, byte })
    }
}

// How often the two ways disagree.
#[derive(Clone, Copy)]
struct Disagreements {
    guards: u32,
    right_sides: u32,
}

// Prints what a position gives, and says where the two ways disagree on it.
fn show_position(
    rt: &HostRuntime,
    guard: &Ways,
    right: &Ways,
    position: i32,
) -> io::Result<Disagreements> {
    let mut row = [0; 7];
    row[LEVER] = position;
    row[GEAR] = position;
    let signed = Ranges::verdict(&guard.signed, &row);
    let byte = Ranges::verdict(&guard.byte, &row);
    let guards = signed != byte;
    let signed = word(signed);
    let byte = word(byte);
    let gear = Ranges::value(&right.signed, &row);
    let bus = Ranges::value(&right.byte, &row);
    let right_sides = gear != bus;
    let gear = Given(gear);
    let bus = Given(bus);
    let mark = if guards || right_sides {
        "  disagree"
    } else {
        ""
    };
    println!(rt; "  {position:>5}  {signed:<12}  {byte:<17}  {gear}, {bus}{mark}")?;
    Ok(Disagreements {
        guards: u32::from(guards),
        right_sides: u32::from(right_sides),
    })
}

pub fn show_lever(rt: &HostRuntime, sheet: &Sheet) -> anyhow::Result<()> {
    let guard = Ways::of(rt.alloc(), guard_nodes(sheet, INTO_REVERSE))?;
    let right = Ways::of(rt.alloc(), right_nodes(sheet, TELL_BUS))?;
    println!(rt; "the lever as a signed number and by byte")?;
    println!(rt; "  lever  less lever 0  less byte lever 0  gear, byte gear")?;
    let mut all = Disagreements {
        guards: 0,
        right_sides: 0,
    };
    for position in -128..128 {
        let here = show_position(rt, &guard, &right, position)?;
        all.guards = all.guards.saturating_add(here.guards);
        all.right_sides = all.right_sides.saturating_add(here.right_sides);
    }
    let guards = all.guards;
    let right_sides = all.right_sides;
    println!(rt;
        "  of 256 positions the guards disagree at {guards} and the right sides at {right_sides}"
    )?;
    Ok(())
}
