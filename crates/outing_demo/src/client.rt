// A client works requests at a lock by a controller, and prints each action.
use crate::texts::{Columns, Place};
use control::{Controller, Grant, Policy, Refusal};
use costs::CostModel;
use locks::{Lock, condition_of};
use port::Port;

#[derive(Drop)]
pub(crate) struct Client<'a, C: CostModel, L: Lock + Drop> {
    rt: &'a HostRuntime,
    port: &'a Port,
    controller: Controller<'a, C>,
    lock: L,
}

impl<'a, C: CostModel, L: Lock + Drop> Client<'a, C, L> {
    // Opens a controller over the lock.
    pub(crate) fn open(
        rt: &'a HostRuntime,
        port: &'a Port,
        policy: Policy<'a, C::Cost>,
        lock: L,
    ) -> anyhow::Result<Client<'a, C, L>> {
        let controller = Controller::<C>::open(port, policy, &lock)?;
        let client = Client {
            rt,
            port,
            controller,
            lock,
        };
        let place = client.place();
        println!(rt; "  open: stage {stage}, {place}", stage = port.header.stage)?;
        Ok(client)
    }

    // Where the lock stands.
    fn place(&self) -> Place {
        Place(condition_of(self.port, self.lock.marks()))
    }

    fn show_quote(&self, request: u8) -> anyhow::Result<()> {
        let quote = Columns::<C>(self.controller.quote(request, &self.lock)?);
        println!(self.rt; "  quote {request}: {quote}")?;
        Ok(())
    }

    fn show_grant(&self, grant: &Grant<C::Cost>) -> anyhow::Result<()> {
        let request = grant.request();
        let quote = Columns::<C>(grant.quote());
        println!(self.rt; "  ask {request}: granted, {quote}")?;
        Ok(())
    }

    // Works one operation for the grant, and tells whether there was one to work.
    fn step(&mut self, grant: &Grant<C::Cost>) -> anyhow::Result<bool> {
        let from = self.place();
        let stepped = self.controller.step(grant, &mut self.lock);
        match stepped {
            Ok(operation) => {
                let to = self.place();
                let left = Columns::<C>(self.controller.quote(grant.request(), &self.lock)?);
                println!(self.rt; "  step: {from}, work {operation}, to {to}, left {left}")?;
            }
            Err(refusal) => println!(self.rt; "  step: {from}, {refusal}")?,
        }
        Ok(stepped.is_ok())
    }

    // Works the operations for the grant until none is left: a plan of the policy has no condition twice.
    fn work(&mut self, grant: &Grant<C::Cost>) -> anyhow::Result<()> {
        self.show_grant(grant)?;
        for _ in &self.port.conditions {
            if !self.step(grant)? {
                break;
            }
        }
        Ok(())
    }

    // Asks for a request.
    fn ask(&mut self, request: u8) -> Result<Grant<C::Cost>, Refusal> {
        self.controller.ask(request, &self.lock)
    }

    // Closes the grant, or has it given back.
    fn close(&mut self, grant: Grant<C::Cost>) -> Result<u8, (Refusal, Grant<C::Cost>)> {
        self.controller.close(grant, &self.lock)
    }

    // Ends a request. Where its grant cannot be closed, breaks off, so that controller and grant are gone.
    // Stays: by a match, since the grant comes back with the refusal and `?` would let it go.
    fn end(mut self, grant: Grant<C::Cost>) -> anyhow::Result<Client<'a, C, L>> {
        match self.close(grant) {
            Ok(stage) => {
                println!(self.rt; "  close: on to stage {stage}")?;
                Ok(self)
            }
            Err((refusal, grant)) => {
                self.controller.break_off(grant);
                Err(refusal.into())
            }
        }
    }

    // Works a request, from its quote to its close.
    pub(crate) fn errand(mut self, request: u8) -> anyhow::Result<Client<'a, C, L>> {
        self.show_quote(request)?;
        let grant = self.ask(request)?;
        let worked = self.work(&grant);
        let ended = self.end(grant);
        worked?;
        ended
    }

    // Asks for a request, and breaks off after one step.
    pub(crate) fn give_up(mut self, request: u8) -> anyhow::Result<()> {
        let grant = self.ask(request)?;
        let shown = self.show_grant(&grant);
        let stepped = self.step(&grant);
        let (stage, request) = self.controller.break_off(grant);
        shown?;
        stepped?;
        println!(self.rt; "  break off: stage {stage}, request {request}")?;
        Ok(())
    }
}
