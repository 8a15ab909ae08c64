// The page of a sheet: which pairs are kept, and the policy under each cost model; or the sheet's fault.
#![tactic(auto)]

mod parts;

use costs::{CostModel, Minutes, MoveCount};
use parts::add_part;
use port::Port;
use sheet::{LoadError, load};
use solver::{Summary, Tables, solved};
use std::alloc::{AllocError, Global};
use std::fmt::Write;

// The two opening lines.
fn opening(heap: Global, summary: Summary, pairs: usize) -> Result<String, AllocError> {
    let Summary {
        kept,
        rounds,
        start,
    } = summary;
    let mut out = format!(in heap; "kept {kept} of {pairs} in {rounds} rounds\n")?;
    if start == 0 {
        writeln!(out, "start kept")?;
    } else {
        writeln!(out, "start dropped {start}")?;
    }
    Ok(out)
}

// The part of the page for a cost model.
fn add_tables<C: CostModel>(
    port: &Port,
    tables: &Tables<C::Cost>,
    out: &mut String,
) -> Result<(), AllocError> {
    add_part::<C>(port.conditions.len(), &tables.entries, &tables.costs, out)
}

// The page of a port.
fn port_page(heap: Global, port: &Port) -> Result<String, AllocError> {
    let moves = solved::<MoveCount>(heap, port)?;
    let minutes = solved::<Minutes>(heap, port)?;
    let mut out = opening(heap, moves.summary, moves.ranks.len())?;
    add_tables::<MoveCount>(port, &moves, &mut out)?;
    add_tables::<Minutes>(port, &minutes, &mut out)?;
    Ok(out)
}

// The page that a sheet comes to; of a faulty sheet it is one line. The only error is want of memory.
pub fn page(heap: Global, sheet: &[u8]) -> Result<String, AllocError> {
    let mut port = Port::new(heap)?;
    match load(&mut port, heap, sheet) {
        Ok(()) => port_page(heap, &port),
        // Stays: one arm hands on want of memory and the next prints a fault; no `From` into the library's error can be written.
        Err(LoadError::Memory) => Err(AllocError),
        Err(fault) => format!(in heap; "{fault}\n"),
    }
}
