// Solves a port, and prints its ranks and its policy.
ghost use Rattle.std.specs.Prelude.{◌<◌};

use costs::{CostModel, Named};
use port::Port;
use solver::{Entry, SolveError, Summary, pair_count, place_count, solve};

// Shows a row of a table: each item with the numbers of the row and of its place there.
fn show_row<T: Copy, F: Fn(usize, usize, T) -> anyhow::Result<()>>(
    row: usize,
    items: &[T],
    show: &F,
) -> anyhow::Result<()>
    requires { F.IsAlwaysCallable show.now }
{
    for (place, item) in items.iter().enumerate() {
        show(row, place, *item)?;
    }
    Ok(())
}

// Shows a table with `width` items in a row.
fn show_table<T: Copy, F: Fn(usize, usize, T) -> anyhow::Result<()>>(
    width: usize,
    items: &[T],
    show: F,
) -> anyhow::Result<()>
    requires row { 0 < width }
    requires show { F.IsAlwaysCallable show }
{
    for (row, items) in items.chunks(width).enumerate() {
        show_row(row, items, &show)?;
    }
    Ok(())
}

// What a solve answered.
fn show_answer(rt: &HostRuntime, answer: Result<Summary, SolveError>) -> anyhow::Result<()> {
    match answer {
        Ok(
            Summary {
                kept,
                rounds,
                start,
            },
        ) => println!(rt; "  kept {kept}, rounds {rounds}, start rank {start}")?,
        Err(error) => println!(rt; "  {error}")?,
    }
    Ok(())
}

// Solves the port, first with a buffer too short for the ranks, then with room for all.
// Stays: the solve into buffers of its own, since `solved` has no refusal to show.
pub(crate) fn show_policy<C: CostModel>(rt: &HostRuntime, port: &Port) -> anyhow::Result<()> {
    let heap = rt.alloc();
    let places = place_count(port);
    let mut entries = vec![in heap; Entry::None; places]?;
    let mut costs = vec![in heap; C::zero(); places]?;
    let mut ranks = vec![in heap; 0; pair_count(port)]?;
    let mut short = vec![in heap; 0; 3]?;
    let name = C::NAME;
    println!(rt; "solve by {name}, with room for 3 ranks")?;
    show_answer(
        rt,
        solve::<C>(heap, port, &mut entries, &mut costs, &mut short),
    )?;
    println!(rt; "solve by {name}")?;
    show_answer(
        rt,
        solve::<C>(heap, port, &mut entries, &mut costs, &mut ranks),
    )?;
    let width = port.conditions.len();
    show_table(width, &ranks, |stage, condition, rank| {
        println!(rt; "  stage {stage} condition {condition} rank {rank}")?;
        Ok(())
    })?;
    show_table(width, &entries, |request, condition, entry| {
        let byte = entry.byte();
        println!(rt; "  request {request} condition {condition} entry {byte}: {entry}")?;
        Ok(())
    })
}
