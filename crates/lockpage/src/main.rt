// Reads a sheet from standard input, and prints its page.
#![tactic(auto)]

use listing::page;
use std::io::Read;

fn run(rt: &HostRuntime) -> anyhow::Result<()> {
    let heap = rt.alloc();
    let mut sheet = Vec::new(heap);
    rt.stdin().read_to_end(&mut sheet)?;
    let text = page(heap, &sheet)?;
    print!(rt; "{text}")?;
    Ok(())
}

fn main(rt: HostRuntime) -> anyhow::Result<()> {
    run(&rt)
}
