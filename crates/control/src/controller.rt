// A controller: it decides on each command by its policy, and does what it decides.
ghost use Rattle.histories.specs.Calls.{ask_rules, close_rules, quote_rules, step_rules};
ghost use Rattle.control.specs.Rulings.{Next, Priced, Spotted, Target};
ghost use Rattle.control.specs.Controllers.{FindsCall, RulesCall};
ghost use Rattle.control.specs.Worlds.{place_in, terms_world};

use crate::answer::{Answer, Reply};
use crate::refusal::Refusal;
use crate::terms::Terms;
use costs::CostModel;
use histories::Command;
use locks::{condition_of, is_possible};
use solver::Entry;

// A controller stands at a stage; a request may be out on it.
#[derive(Drop)]
pub struct Controller<'a, C: CostModel> {
    pub(crate) terms: Terms<'a, C>,
    pub(crate) stage: u8,
    pub(crate) out: Option<u8>,
}

impl<'a, C: CostModel> Controller<'a, C> {
    // The condition that the lock stands in, where the request is one of this stage.
    fn spot(&self, request: u8, marks: u16) -> Result<u8, Refusal>
        ensures { Spotted (terms_world C.model C.exact self.now.terms) self.now.stage (place_in self.now.terms.port.now marks) request result }
    {
        if !self.terms.offers(self.stage, request) {
            return Err(Refusal::NotOffered);
        }
        condition_of(self.terms.port, marks).ok_or(Refusal::NoCondition)
    }

    // Stays: request and marks as two parameters of these, as they stand in a command and in a lock: a struct of both would live for one call.

    // What a request would cost.
    fn rule_quote(&self, request: u8, marks: u16) -> Result<C::Cost, Refusal>
        ensures { FindsCall C.model C.exact self.now request marks quote_rules (Priced C.exact) result }
    {
        let condition = self.spot(request, marks)?;
        match self.terms.entry(request, condition) {
            Entry::None => Err(Refusal::NoPlan),
            Entry::There | Entry::Work(_) => Ok(self.terms.cost(request, condition)),
        }
    }

    // The quote of a grant.
    fn rule_ask(&self, request: u8, marks: u16) -> Result<C::Cost, Refusal>
        ensures { FindsCall C.model C.exact self.now request marks ask_rules (Priced C.exact) result }
    {
        let condition = self.spot(request, marks)?;
        match self.terms.entry(request, condition) {
            Entry::None => Err(Refusal::NoPlan),
            Entry::Work(operation) if !is_possible(self.terms.port, condition, operation) => {
                Err(Refusal::Stuck)
            }
            Entry::There | Entry::Work(_) => Ok(self.terms.cost(request, condition)),
        }
    }

    // The operation to work next.
    fn rule_step(&self, request: u8, marks: u16) -> Result<u8, Refusal>
        ensures { FindsCall C.model C.exact self.now request marks step_rules Next result }
    {
        let condition = self.spot(request, marks)?;
        match self.terms.entry(request, condition) {
            Entry::None => Err(Refusal::NoPlan),
            Entry::There => Err(Refusal::Arrived),
            Entry::Work(operation) if is_possible(self.terms.port, condition, operation) => {
                Ok(operation)
            }
            Entry::Work(_) => Err(Refusal::Stuck),
        }
    }

    // The stage to go on to.
    fn rule_close(&self, request: u8, marks: u16) -> Result<u8, Refusal>
        ensures { FindsCall C.model C.exact self.now request marks close_rules Target result }
    {
        let condition = self.spot(request, marks)?;
        match self.terms.entry(request, condition) {
            Entry::None | Entry::Work(_) => Err(Refusal::NotArrived),
            Entry::There => Ok(self.terms.target(request)),
        }
    }

    // What a command comes to where the lock has these marks, if the lock does as it is bidden. It depends on whether a request is out and on
    // the command together.
    pub(crate) fn rule(&self, command: Command, marks: u16) -> Answer<C::Cost>
        ensures { RulesCall C.model C.exact self.now marks command result }
    {
        match (self.out, command) {
            (_, Command::Quote(q)) => Ok(Reply::Quoted(self.rule_quote(q, marks)?)),
            (Some(_), Command::Ask(_)) => Err(Refusal::AlreadyOut),
            (None, Command::Ask(q)) => Ok(Reply::Granted(self.rule_ask(q, marks)?)),
            (Some(out), Command::Step(q)) if q == out => {
                Ok(Reply::Worked(self.rule_step(q, marks)?))
            }
            (Some(out), Command::Close(q)) if q == out => {
                Ok(Reply::Closed(self.rule_close(q, marks)?))
            }
            (_, Command::Step(_) | Command::Close(_)) => Err(Refusal::NotOut),
        }
    }
}
