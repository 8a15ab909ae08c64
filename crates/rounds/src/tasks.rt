// A port's requests as the rounds see them.
ghost use Rattle.std.specs.Prelude.{◌≡◌, ℕ, false, ◌&&◌, length, IfOk, OnOk, map as mapped};
ghost use Rattle.plans.specs.Flags.{has};
ghost use Rattle.port.specs.Limits.{In};
ghost use Rattle.port.specs.Model.{request_model};
ghost use Rattle.rounds.specs.Rounds.{Wide, domain_in};
ghost use Rattle.rounds.specs.Tasks.{Fresh, IsTask, SameTexts, TasksOf, planned};

use crate::rows::{Formula, both};
use crate::stages::Stage;
use costs::MoveCount;
use index::MoveIndex;
use port::{Port, Request};
use search::{Choice, search};
use std::alloc::{AllocError, Global};

// A request: its stages, and rows of flags by condition.
// Stays: rows beside each other, as in `Stage`: a search takes two of them as slices of flags.
#[derive(Drop)]
pub struct Task {
    pub(crate) from: usize,
    pub(crate) to: usize,
    // Where it may be worked, since its keep holds.
    pub keep: Vec<bool>,
    // Where its reach holds.
    pub(crate) reach: Vec<bool>,
    // Where it may end: its reach holds, and the pair with its to-stage is left.
    pub goal: Vec<bool>,
    // From where it can be served, with that goal.
    pub(crate) served: Vec<bool>,
}

// From which conditions there is a plan.
fn planned<K: Copy>(heap: Global, choices: &[Choice<K>]) -> Result<Vec<bool>, AllocError>
    ensures { IfOk result (λ v. v.items ≡ mapped planned choices.now) }
{
    choices
        .iter()
        .map(|choice| !matches!(choice, Choice::None))
        .collect(heap)
}

impl Task {
    fn new(heap: Global, port: &Port, request: &Request) -> Result<Task, AllocError>
        requires { In request.now port.now.requests.items }
        ensures { IfOk result (λ t. IsTask port.now.header.marks port.now.conditions.items (request_model request.now) t) }
    {
        let count = port.header.marks;
        let keep = Formula {
            text: &request.keep,
            count,
        };
        let reach = Formula {
            text: &request.reach,
            count,
        };
        Ok(Task {
            from: request.from as usize,
            to: request.to as usize,
            keep: keep.holding(heap, &port.conditions)?,
            reach: reach.holding(heap, &port.conditions)?,
            goal: Vec::new(heap),
            served: Vec::new(heap),
        })
    }

    // Where the request may end with these pairs of its to-stage.
    fn goal_with(&self, heap: Global, alive: &[bool]) -> Result<Vec<bool>, AllocError>
        ensures each { IfOk result (λ v. (c : ℕ) → has v.items c ≡ (has self.now.reach.items c && has alive.now c)) }
        ensures long { IfOk result (λ v. length self.now.reach.items ≡ length alive.now → length v.items ≡ length alive.now) }
    {
        both(heap, &self.reach, alive)
    }

    // Finds anew where the request may end with these pairs of its to-stage, and from where it can then be served.
    fn aim(&mut self, heap: Global, index: &MoveIndex, alive: &[bool]) -> Result<(), AllocError>
        requires reach { length self.old.reach.items ≡ (domain_in index.now).conditions }
        requires alive { length alive.now ≡ (domain_in index.now).conditions }
        ensures same { OnOk result (SameTexts self.old self.new) }
        ensures fresh { OnOk result (Fresh (domain_in index.now) alive.now self.new) }
    {
        self.goal = self.goal_with(heap, alive)?;
        let choices = search::<MoveCount>(heap, index, &self.keep, &self.goal)?;
        self.served = planned(heap, &choices)?;
        Ok(())
    }

    // Brings the request's goal, and from where it can be served, up to date with the pairs of its to-stage: it is searched again
    // where that stage has lost one.
    pub(crate) fn refresh(
        &mut self,
        heap: Global,
        index: &MoveIndex,
        end: &Stage,
    ) -> Result<(), AllocError>
        requires reach { length self.old.reach.items ≡ (domain_in index.now).conditions }
        requires wide { Wide (domain_in index.now).conditions end.now }
        requires fresh { end.now.lost ≡ false → Fresh (domain_in index.now) end.now.alive.items self.old }
        ensures same { OnOk result (SameTexts self.old self.new) }
        ensures fresh { OnOk result (Fresh (domain_in index.now) end.now.alive.items self.new) }
    {
        if !end.lost {
            return Ok(());
        }
        self.aim(heap, index, &end.alive)
    }
}

// A task for each request of the port.
pub(crate) fn tasks_of(heap: Global, port: &Port) -> Result<Vec<Task>, AllocError>
    ensures { IfOk result (λ v. TasksOf port.now v.items) }
{
    let mut tasks = Vec::with_capacity(heap, port.requests.len())?;
    // Stays: tried with `try_collect`: that a request is one of the port's, as `Task::new` asks, did not close for its closure.
    for request in &port.requests {
        tasks.push(Task::new(heap, port, request)?)?;
    }
    Ok(tasks)
}
