// A whole outing: solve a port, open a controller over a lock, and carry out commands.
ghost use Rattle.std.specs.Prelude.{◌≡◌, ◌≤◌, [], length, vec_capacity, MatchResult, Some};
ghost use Rattle.port.specs.Model.{model_of};
ghost use Rattle.control.specs.Handlings.{Carried, Tended};
ghost use Rattle.control.specs.Outings.{Failed, Logged, Told, outing_error_text};
ghost use Rattle.control.specs.States.{state};
ghost use Rattle.control.specs.Worlds.{terms_world};
ghost use Rattle.control.specs.declared.tour.OutingError.TheVariants.{Memory, Refused};

use crate::answer::Answer;
use crate::controller::Controller;
use crate::policy::Policy;
use crate::refusal::Refusal;
use costs::CostModel;
use histories::Command;
use locks::Lock;
use port::Port;
use solver::solved;
use std::alloc::{AllocError, Global};
use std::error::Error;
use std::fmt;

// Why an outing has no log: the opening was refused, or there was no memory.
#[derive(Clone, Copy, Debug, PartialEq, Eq)]
pub enum OutingError {
    Refused(Refusal),
    Memory,
}

impl fmt::Display for OutingError {
    ghost output = { λ e. Some (outing_error_text e) };

    fn fmt<W: fmt::Write>(&self, f: &mut fmt::Formatter<W>) -> fmt::Result {
        match self {
            OutingError::Refused(refusal) => write!(f, "{refusal}"),
            OutingError::Memory => write!(f, "no memory"),
        }
    }
}

impl Error for OutingError {}

// Stays: this `From` and the next by hand, since a derived one says nothing in `from_gives`, by which a clause knows what a `?` made.
impl From<AllocError> for OutingError {
    ghost from_gives = { λ _ r. r ≡ Memory };

    fn from(_e: AllocError) -> OutingError {
        OutingError::Memory
    }
}

impl From<Refusal> for OutingError {
    ghost from_gives = { λ e r. r ≡ Refused e };

    fn from(e: Refusal) -> OutingError {
        OutingError::Refused(e)
    }
}

impl<'a, C: CostModel> Controller<'a, C> {
    // Carries out commands, one after another, and logs the answer to each.
    // Stays: `home` as a clause of this and of `outing`, for the reason told at `work_on`: within what they say of the log it would take the lock's
    // port after the calls as one argument more.
    fn run<L: Lock>(&mut self, commands: &[Command], lock: &mut L, log: &mut Vec<Answer<C::Cost>>)
        requires empty { log.old.items ≡ [] }
        requires room { length commands.now ≤ vec_capacity log.old }
        ensures home { L.home lock.new ≡ L.home lock.old }
        ensures logged { Logged C.exact (terms_world C.model C.exact self.old.terms) (model_of self.old.terms.port.now).conditions (L.home lock.old) (state self.old.stage self.old.out (L.present lock.old)) commands.now log.new.items (state self.new.stage self.new.out (L.present lock.new)) }
        ensures tended { Tended C.exact L.present L.works (terms_world C.model C.exact self.old.terms) (model_of self.old.terms.port.now).conditions (L.home lock.old) (state self.old.stage self.old.out (L.present lock.old)) lock.old commands.now log.new.items (state self.new.stage self.new.out (L.present lock.new)) lock.new }
    {
        for command in commands {
            let answer = self.perform(*command, lock);
            log.push(answer).unwrap();
        }
    }
}

// Solves the port, opens a controller over the lock at the port's start stage, carries out the commands, and returns their answers, one for
// one. Nothing is done to the lock before there is room for the whole log.
pub fn outing<C: CostModel, L: Lock>(
    heap: Global,
    port: &Port,
    lock: &mut L,
    commands: &[Command],
) -> Result<Vec<Answer<C::Cost>>, OutingError>
    ensures home { L.home lock.new ≡ L.home lock.old }
    ensures told { MatchResult result (λ log. Told C.model C.exact (model_of port.now) (L.home lock.old) (L.present lock.old) commands.now (L.present lock.new) log.items) (λ e. Failed C.model (model_of port.now) (L.present lock.old) (L.present lock.new) e) }
    ensures carried { MatchResult result (λ log. Carried C.model C.exact L.present L.works (model_of port.now) (L.home lock.old) lock.old commands.now lock.new log.items) (λ _. lock.new ≡ lock.old) }
{
    let tables = solved::<C>(heap, port)?;
    let mut log = Vec::with_capacity(heap, commands.len())?;
    let mut controller = Controller::<C>::open(port, Policy::from(&tables), lock)?;
    controller.run(commands, lock, &mut log);
    Ok(log)
}
