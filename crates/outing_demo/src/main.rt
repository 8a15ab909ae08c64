// Takes an outing at Low Staithe over two locks, and prints each action; then every refusal, and the log of an outing in one call.
#![tactic(auto)]

mod client;
mod logs;
mod refusals;
mod sheets;
mod texts;

use client::Client;
use control::Policy;
use costs::{CostModel, Minutes, MoveCount};
use locks::{LeastChangeLock, Lock, ScriptedLock};
use logs::show_log;
use port::Port;
use refusals::show_refusals;
use sheet::load;
use sheets::LOW_STAITHE;
use solver::solved;

// The script of a lock: its one byte names the second of two outcomes.
const SCRIPT: [u8; 1] = [0x01];

// Works request 0 and then request 1, which leads back to the start stage, and gives up request 0 the next time.
fn show_errands<C: CostModel, L: Lock + Drop>(
    rt: &HostRuntime,
    port: &Port,
    lock: L,
) -> anyhow::Result<()> {
    let tables = solved::<C>(rt.alloc(), port)?;
    let client = Client::<C, L>::open(rt, port, Policy::from(&tables), lock)?;
    client.errand(0)?.errand(1)?.give_up(0)
}

// The same errands over both locks.
fn show_locks<C: CostModel>(rt: &HostRuntime, port: &Port) -> anyhow::Result<()> {
    let name = C::NAME;
    println!(rt; "by {name}, over a lock with the script 01")?;
    show_errands::<C, ScriptedLock>(rt, port, ScriptedLock::new(port, 0, &SCRIPT))?;
    println!(rt; "by {name}, over a lock that changes the fewest marks")?;
    show_errands::<C, LeastChangeLock>(rt, port, LeastChangeLock::new(port, 0))
}

// Outings in one call, over both locks.
fn show_logs(rt: &HostRuntime, port: &Port) -> anyhow::Result<()> {
    println!(rt; "in one call, over a lock with the script 01")?;
    show_log::<Minutes, ScriptedLock>(rt, port, ScriptedLock::new(port, 0, &SCRIPT))?;
    println!(rt; "in one call, over a lock that changes the fewest marks")?;
    show_log::<Minutes, LeastChangeLock>(rt, port, LeastChangeLock::new(port, 0))
}

fn run(rt: &HostRuntime) -> anyhow::Result<()> {
    let mut port = Port::new(rt.alloc())?;
    load(&mut port, rt.alloc(), &LOW_STAITHE)?;
    show_locks::<MoveCount>(rt, &port)?;
    show_locks::<Minutes>(rt, &port)?;
    let tables = solved::<Minutes>(rt.alloc(), &port)?;
    show_refusals(rt, &port, Policy::from(&tables))?;
    show_logs(rt, &port)
}

fn main(rt: HostRuntime) -> anyhow::Result<()> {
    run(&rt)
}
