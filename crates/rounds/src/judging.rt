// Which pairs of stage and condition are kept, by synchronous rounds: each takes out the pairs that some request of their stage cannot
// be served from, with the pairs that the round before left to end in.
ghost use Rattle.std.specs.Prelude.{◌≡◌, ℕ, ◌+◌, ◌<◌, true, length, IfOk, OnOk, slice_index_or};
ghost use Rattle.std.specs.List.{flat_map};
ghost use Rattle.plans.specs.Domains.{domain_of};
ghost use Rattle.port.specs.Model.{model_of};
ghost use Rattle.index.specs.Indexed.{port_of};
ghost use Rattle.rounds.specs.Stages.{Even, SettledAll, rank_row};
ghost use Rattle.rounds.specs.Rounds.{Going, RoundReady, Turned, domain_in};
ghost use Rattle.rounds.specs.Verdicts.{Judges};

use crate::stages::{Stage, stages_of};
use crate::tasks::{Task, tasks_of};
use index::MoveIndex;
use port::Port;
use std::alloc::{AllocError, Global};

// What a port comes to: the index of its moves, its requests with where each may be worked and may end, and the ranks of the pairs,
// by stage and then by condition.
#[derive(Drop)]
pub struct Verdict<'a> {
    pub index: MoveIndex<'a>,
    pub tasks: Vec<Task>,
    pub ranks: Vec<u16>,
}

// The turns of the requests in a round. They read the pairs that are left and write what the round leaves of them: what is taken out
// there counts from the next round on.
fn take_turns(
    heap: Global,
    index: &MoveIndex,
    tasks: &mut [Task],
    stages: &mut [Stage],
) -> Result<(), AllocError>
    requires { RoundReady (domain_in index.now) tasks.old stages.old }
    ensures { OnOk result (Turned (domain_in index.now) stages.old tasks.new stages.new (length (domain_in index.now).tasks)) }
{
    for task in tasks.iter_mut() {
        task.refresh(heap, index, &stages[task.to])?;
        stages[task.from].narrow(&task.served);
    }
    Ok(())
}

// Ends a round of this number; whether it took out a pair.
fn settle(stages: &mut [Stage], round: u16) -> bool
    requires { (s : ℕ) (d : Stage) → s < length stages.old → Even (slice_index_or stages.old s d) }
    ensures { SettledAll round stages.old stages.new result }
{
    for stage in stages.iter_mut() {
        stage.settle(round);
    }
    stages.iter().any(|stage| stage.lost)
}

// The ranks of the pairs, by stage and then by condition.
fn ranks_of(heap: Global, stages: &[Stage]) -> Result<Vec<u16>, AllocError>
    ensures { IfOk result (λ v. v.items ≡ flat_map rank_row stages.now) }
{
    let mut ranks = Vec::new(heap);
    for stage in stages {
        ranks.extend_from_slice(&stage.ranks)?;
    }
    Ok(ranks)
}

// The rounds over a port's pairs, so many of them.
#[derive(Drop)]
struct Rounds<'a> {
    index: MoveIndex<'a>,
    tasks: Vec<Task>,
    stages: Vec<Stage>,
    count: u16,
    // Whether the last of them took out a pair; true before the first.
    changed: bool,
    ghost going: { Going (domain_in index) tasks.items stages.items count changed },
}

impl<'a> Rounds<'a> {
    // Before the first round, with every pair left.
    fn new(heap: Global, port: &'a Port) -> Result<Rounds<'a>, AllocError>
        ensures { IfOk result (λ r. port_of r.index ≡ port.now) }
    {
        let index = MoveIndex::new(heap, port)?;
        let tasks = tasks_of(heap, port)?;
        let stages = stages_of(heap, index.stages(), index.conditions())?;
        Ok(Rounds {
            index,
            tasks,
            stages,
            count: 0,
            changed: true,
        })
    }

    // One round more.
    fn run(self, heap: Global) -> Result<Rounds<'a>, AllocError>
        requires { self.changed ≡ true }
        ensures index { IfOk result (λ r. r.index ≡ self.entry.index) }
        ensures count { IfOk result (λ r. r.count ≡ self.entry.count + 1) }
    {
        let Rounds {
            index,
            mut tasks,
            mut stages,
            count,
            ..
        } = self;
        take_turns(heap, &index, &mut tasks, &mut stages)?;
        let count = count + 1;
        let changed = settle(&mut stages, count);
        Ok(Rounds {
            index,
            tasks,
            stages,
            count,
            changed,
        })
    }
}

// Which pairs of a port are kept, told by the rank of each, and where each request may be worked and may end.
pub fn judge<'a>(heap: Global, port: &'a Port) -> Result<Verdict<'a>, AllocError>
    ensures index { IfOk result (λ v. port_of v.index ≡ port.now) }
    ensures told { IfOk result (λ v. Judges (domain_of (model_of port.now)) v.tasks.items v.ranks.items) }
{
    let mut rounds = Rounds::new(heap, port)?;
    // Stays: how many rounds there are is known only once one takes nothing out.
    while rounds.changed {
        rounds = rounds.run(heap)?;
    }
    let Rounds {
        index,
        tasks,
        stages,
        ..
    } = rounds;
    let ranks = ranks_of(heap, &stages)?;
    Ok(Verdict {
        index,
        tasks,
        ranks,
    })
}
