// Works the Low Staithe sheet from load to listing, and prints each action.
#![tactic(auto)]

mod policies;
mod sheets;

use costs::{Minutes, MoveCount};
use listing::page;
use policies::show_policy;
use port::{Header, Port};
use sheet::load;
use sheets::{LOW_STAITHE, MISSPELT};

// What a port holds, in counts.
fn show_port(rt: &HostRuntime, port: &Port) -> anyhow::Result<()> {
    let Header {
        marks,
        operations,
        stages,
        ..
    } = port.header;
    let conditions = port.conditions.len();
    let moves = port.moves.len();
    let requests = port.requests.len();
    println!(rt; "  marks {marks}, operations {operations}, stages {stages}")?;
    println!(rt; "  conditions {conditions}, moves {moves}, requests {requests}")?;
    Ok(())
}

// Loads a sheet, and tells what came of it and what the port then holds.
fn show_load(rt: &HostRuntime, port: &mut Port, name: &str, sheet: &[u8]) -> anyhow::Result<()> {
    println!(rt; "load {name}")?;
    match load(port, rt.alloc(), sheet) {
        Ok(()) => println!(rt; "  loaded")?,
        Err(error) => println!(rt; "  {error}")?,
    }
    show_port(rt, port)
}

fn run(rt: &HostRuntime) -> anyhow::Result<()> {
    let mut port = Port::new(rt.alloc())?;
    println!(rt; "before any load")?;
    show_port(rt, &port)?;
    show_load(
        rt,
        &mut port,
        "Low Staithe without its last byte",
        &LOW_STAITHE[0..65],
    )?;
    show_load(rt, &mut port, "Low Staithe", &LOW_STAITHE)?;
    show_load(
        rt,
        &mut port,
        "Low Staithe with another last byte",
        &MISSPELT,
    )?;
    show_policy::<MoveCount>(rt, &port)?;
    show_policy::<Minutes>(rt, &port)?;
    println!(rt; "list")?;
    let text = page(rt.alloc(), &LOW_STAITHE)?;
    print!(rt; "{text}")?;
    Ok(())
}

fn main(rt: HostRuntime) -> anyhow::Result<()> {
    run(&rt)
}
