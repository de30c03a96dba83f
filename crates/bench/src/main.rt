// Shows a shift sheet being taken in, broken ones being refused, and what the sheet's expressions give.
#![tactic(auto)]

mod broken;
mod gears;
mod lever;
mod show;

use samples::shuttle;
use sheet::Sheet;

fn run(rt: &HostRuntime) -> anyhow::Result<()> {
    let mut sheet = Sheet::empty(rt.alloc());
    if let Err(why) = sheet.load(rt.alloc(), &shuttle::tables()) {
        let number = why.number();
        println!(rt; "the shuttle's sheet is refused with {number}, {why}")?;
        return Ok(());
    }
    println!(rt; "the shuttle's sheet is loaded")?;
    show::show_sheet(rt, &sheet, shuttle::called())?;
    broken::show_refusals(rt, &mut sheet)?;
    println!(rt; "the shuttle's sheet as it is now")?;
    show::show_sizes(rt, &sheet)?;
    lever::show_lever(rt, &sheet)?;
    gears::show_gears(rt)?;
    Ok(())
}

fn main(rt: HostRuntime) -> anyhow::Result<()> {
    run(&rt)
}
