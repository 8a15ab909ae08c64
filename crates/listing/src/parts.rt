// One part of a page: the name of a cost model, and a line for each request and condition.
ghost use Rattle.std.specs.Prelude.{◌<◌};

use costs::{CostModel, Named};
use solver::Entry;
use std::alloc::AllocError;
use std::fmt::Write;

// The columns of a cost.
fn add_columns<C: CostModel>(cost: C::Cost, out: &mut String) -> Result<(), AllocError> {
    // Stays: a cost model tells a column by its number, so that there are no items to go over.
    for i in 0..C::COLUMNS {
        let column = C::column(cost, i);
        write!(out, " {column}")?;
    }
    Ok(())
}

// The lines of a request, one for each condition: an entry, with its cost where there is work.
fn add_request<C: CostModel>(
    request: usize,
    entries: &[Entry],
    costs: &[C::Cost],
    out: &mut String,
) -> Result<(), AllocError> {
    for (condition, (entry, cost)) in entries.iter().zip(costs).enumerate() {
        write!(out, "{request} {condition} {entry}")?;
        if let Entry::Work(_) = entry {
            add_columns::<C>(*cost, out)?;
        }
        writeln!(out)?;
    }
    Ok(())
}

pub(crate) fn add_part<C: CostModel>(
    width: usize,
    entries: &[Entry],
    costs: &[C::Cost],
    out: &mut String,
) -> Result<(), AllocError>
    requires { 0 < width }
{
    let name = C::NAME;
    writeln!(out, "{name}")?;
    for (request, (entries, costs)) in entries.chunks(width).zip(costs.chunks(width)).enumerate() {
        add_request::<C>(request, entries, costs, out)?;
    }
    Ok(())
}
