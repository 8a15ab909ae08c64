// The calls on a controller.
ghost use Rattle.std.specs.Prelude.{◌≡◌, IfOk, IfErr};
ghost use Rattle.port.specs.Model.{model_of};
ghost use Rattle.control.specs.Controllers.{DidCall, DoesCall};
ghost use Rattle.control.specs.Handlings.{HandlesCall};
ghost use Rattle.control.specs.States.{ask_answer, close_answer, finish_answer, grant_answer, quote_answer, step_answer};

use crate::answer::{Answer, Reply};
use crate::controller::Controller;
use crate::grant::Grant;
use crate::refusal::Refusal;
use costs::CostModel;
use histories::Command;
use locks::Lock;

// Stays: each call takes its own reply out of what `rule` comes to, and `perform` goes by the calls. With `rule_quote` and its like called
// directly, three of the calls would each test what is out, which the one match in `rule` shows as a whole.
impl<'a, C: CostModel> Controller<'a, C> {
    // What a request would cost: the policy's cost for it, where the lock stands.
    pub fn quote<L: Lock>(&self, request: u8, lock: &L) -> Result<C::Cost, Refusal>
        ensures { DidCall C.model C.exact self.now (L.present lock.now) (Command.Quote request) (quote_answer result) self.now (L.present lock.now) }
    {
        let Reply::Quoted(quote) = self.rule(Command::Quote(request), lock.marks())? else {
            unreachable!()
        };
        Ok(quote)
    }

    // Puts a request out, and answers its quote.
    fn put_out<L: Lock>(&mut self, request: u8, lock: &L) -> Result<C::Cost, Refusal>
        ensures { DidCall C.model C.exact self.old (L.present lock.now) (Command.Ask request) (grant_answer result) self.new (L.present lock.now) }
    {
        let Reply::Granted(quote) = self.rule(Command::Ask(request), lock.marks())? else {
            unreachable!()
        };
        self.out = Some(request);
        Ok(quote)
    }

    // Asks for a request, which is then out, with a grant for it.
    pub fn ask<L: Lock>(&mut self, request: u8, lock: &L) -> Result<Grant<C::Cost>, Refusal>
        ensures did { DidCall C.model C.exact self.old (L.present lock.now) (Command.Ask request) (ask_answer result) self.new (L.present lock.now) }
        ensures granted { IfOk result (λ g. g.request ≡ request) }
    {
        let quote = self.put_out(request, lock)?;
        Ok(Grant { request, quote })
    }

    // Works the policy's operation for a request once.
    // Stays: `home` as a clause, here and where it stands after this: within `DoesCall` it would take one more argument, the lock's port after the call.
    fn work_on<L: Lock>(&self, request: u8, lock: &mut L) -> Result<u8, Refusal>
        ensures home { L.home lock.new ≡ L.home lock.old }
        ensures does { DoesCall C.model C.exact (L.home lock.old) self.now (L.present lock.old) (Command.Step request) (step_answer result) self.now (L.present lock.new) }
        ensures handles { HandlesCall C.model C.exact L.present L.works self.now (Command.Step request) (step_answer result) lock.old lock.new }
    {
        let Reply::Worked(operation) = self.rule(Command::Step(request), lock.marks())? else {
            unreachable!()
        };
        if !lock.work(operation) {
            return Err(Refusal::Stuck);
        }
        Ok(operation)
    }

    // Works the policy's operation for the grant's request once, and answers it.
    pub fn step<L: Lock>(&self, grant: &Grant<C::Cost>, lock: &mut L) -> Result<u8, Refusal>
        ensures home { L.home lock.new ≡ L.home lock.old }
        ensures does { DoesCall C.model C.exact (L.home lock.old) self.now (L.present lock.old) (Command.Step grant.now.request) (step_answer result) self.now (L.present lock.new) }
        ensures did { L.home lock.old ≡ model_of self.now.terms.port.now → DidCall C.model C.exact self.now (L.present lock.old) (Command.Step grant.now.request) (step_answer result) self.now (L.present lock.new) }
        ensures handles { HandlesCall C.model C.exact L.present L.works self.now (Command.Step grant.now.request) (step_answer result) lock.old lock.new }
    {
        self.work_on(grant.request, lock)
    }

    // Ends a request where the entry is there, and goes on to its stage.
    fn finish<L: Lock>(&mut self, request: u8, lock: &L) -> Result<u8, Refusal>
        ensures { DidCall C.model C.exact self.old (L.present lock.now) (Command.Close request) (finish_answer result) self.new (L.present lock.now) }
    {
        let Reply::Closed(stage) = self.rule(Command::Close(request), lock.marks())? else {
            unreachable!()
        };
        self.out = None;
        self.stage = stage;
        Ok(stage)
    }

    // Closes the grant's request, and answers the stage gone on to. A refused close gives the grant back.
    pub fn close<L: Lock>(
        &mut self,
        grant: Grant<C::Cost>,
        lock: &L,
    ) -> Result<u8, (Refusal, Grant<C::Cost>)>
        ensures did { DidCall C.model C.exact self.old (L.present lock.now) (Command.Close grant.request) (close_answer result) self.new (L.present lock.now) }
        ensures back { IfErr result (λ p. p.1 ≡ grant) }
    {
        // Stays: the grant is used up in one arm and given back in the other, so that no closure for `map_err` can hold it.
        match self.finish(grant.request, lock) {
            Ok(stage) => {
                let Grant {
                    request: _,
                    quote: _,
                } = grant;
                Ok(stage)
            }
            Err(refusal) => Err((refusal, grant)),
        }
    }

    // Gives up controller and grant, at any time: answers the controller's stage and the grant's request.
    pub fn break_off(self, grant: Grant<C::Cost>) -> (u8, u8)
        ensures { result ≡ (self.entry.stage, grant.request) }
    {
        let Grant { request, quote: _ } = grant;
        (self.stage, request)
    }

    // Carries out one command, of whatever kind.
    pub(crate) fn perform<L: Lock>(&mut self, command: Command, lock: &mut L) -> Answer<C::Cost>
        ensures home { L.home lock.new ≡ L.home lock.old }
        ensures does { DoesCall C.model C.exact (L.home lock.old) self.old (L.present lock.old) command result self.new (L.present lock.new) }
        ensures handles { HandlesCall C.model C.exact L.present L.works self.old command result lock.old lock.new }
    {
        match command {
            Command::Quote(request) => Ok(Reply::Quoted(self.quote(request, lock)?)),
            Command::Ask(request) => Ok(Reply::Granted(self.put_out(request, lock)?)),
            Command::Step(request) => Ok(Reply::Worked(self.work_on(request, lock)?)),
            Command::Close(request) => Ok(Reply::Closed(self.finish(request, lock)?)),
        }
    }
}
