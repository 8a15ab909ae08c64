// An outing in one call, and its log.
use crate::texts::{Place, Told};
use control::outing;
use costs::CostModel;
use histories::Command;
use locks::{Lock, condition_of};
use port::Port;

const COMMANDS: [Command; 11] = [
    Command::Quote(0),
    Command::Step(0),
    Command::Ask(1),
    Command::Ask(0),
    Command::Close(0),
    Command::Step(0),
    Command::Step(0),
    Command::Close(0),
    Command::Ask(1),
    Command::Step(1),
    Command::Close(1),
];

// Carries out the commands over the lock, and prints each beside its answer, and where the lock then stands.
pub(crate) fn show_log<C: CostModel, L: Lock + Drop>(
    rt: &HostRuntime,
    port: &Port,
    mut lock: L,
) -> anyhow::Result<()> {
    let log = outing::<C, L>(rt.alloc(), port, &mut lock, &COMMANDS)?;
    for (command, answer) in COMMANDS.iter().zip(&log) {
        let told = Told::<C>(*answer);
        println!(rt; "  {command:?}: {told}")?;
    }
    let place = Place(condition_of(port, lock.marks()));
    println!(rt; "  ends: {place}")?;
    Ok(())
}
