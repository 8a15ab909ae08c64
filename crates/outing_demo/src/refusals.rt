// Every refusal that a client can provoke.
use crate::texts::Told;
use control::{Answer, Controller, Grant, Policy, Refusal, Reply};
use costs::{Minutes, Time};
use locks::{LeastChangeLock, Lock, ScriptedLock};
use port::Port;
use solver::Entry;

// A policy that works operation 1 everywhere, also where it is not possible.
const STRAY: [Entry; 8] = [Entry::Work(1); 8];

// A port and a policy for it, at which calls are made that are refused.
#[derive(Clone, Copy)]
struct Desk<'a> {
    port: &'a Port,
    policy: Policy<'a, Time>,
}

impl<'a> Desk<'a> {
    // A lock of the port with any marks. At Low Staithe 0 to 3 are those of the conditions 0 to 3, and 4 are those of none.
    fn lock(&self, marks: u16) -> LeastChangeLock<'a> {
        LeastChangeLock::new(self.port, marks)
    }

    fn open<L: Lock>(&self, lock: &L) -> Result<Controller<'a, Minutes>, Refusal> {
        Controller::open(self.port, self.policy, lock)
    }

    // Opens over a lock with these marks, and quotes a request there.
    fn opened(&self, marks: u16, request: u8) -> Answer<Time> {
        let lock = self.lock(marks);
        let quote = self.open(&lock)?.quote(request, &lock)?;
        Ok(Reply::Quoted(quote))
    }

    // Opens with tables that have no room for the ranks.
    fn opened_short(&self) -> Answer<Time> {
        let policy = Policy {
            ranks: &[],
            ..self.policy
        };
        Desk { policy, ..*self }.opened(0, 0)
    }

    // Opens at a lock without marks, and quotes a request over another, with these marks.
    fn moved(&self, marks: u16) -> Answer<Time> {
        let controller = self.open(&self.lock(0))?;
        let quote = controller.quote(0, &self.lock(marks))?;
        Ok(Reply::Quoted(quote))
    }

    // Asks while a request is out. Were there a second grant, it would want a controller of its own to be broken off with.
    fn asked_again(&self) -> Answer<Time> {
        let lock = self.lock(0);
        let mut controller = self.open(&lock)?;
        let other = self.open(&lock)?;
        let grant = controller.ask(0, &lock)?;
        match controller.ask(0, &lock) {
            Ok(second) => {
                let quote = second.quote();
                controller.break_off(second);
                other.break_off(grant);
                Ok(Reply::Granted(quote))
            }
            Err(refusal) => {
                controller.break_off(grant);
                Err(refusal)
            }
        }
    }

    // Asks one controller, and steps on another with the grant.
    fn stepped_elsewhere(&self) -> Answer<Time> {
        let mut lock = self.lock(0);
        let mut controller = self.open(&lock)?;
        let other = self.open(&lock)?;
        let grant = controller.ask(0, &lock)?;
        let stepped = other.step(&grant, &mut lock);
        gave_up(controller, grant, stepped)
    }

    // Asks at the start, and steps over a lock that stands where the request has arrived.
    fn stepped_late(&self) -> Answer<Time> {
        let mut controller = self.open(&self.lock(0))?;
        let grant = controller.ask(0, &self.lock(0))?;
        let stepped = controller.step(&grant, &mut self.lock(1));
        gave_up(controller, grant, stepped)
    }

    // Closes before the request has arrived.
    // Stays: by a match here, as in `Controller::close`, since the grant comes back with the refusal; in `asked_again`, since a grant may come.
    fn closed_early(&self) -> Answer<Time> {
        let lock = self.lock(0);
        let mut controller = self.open(&lock)?;
        let grant = controller.ask(0, &lock)?;
        match controller.close(grant, &lock) {
            Ok(stage) => Ok(Reply::Closed(stage)),
            Err((refusal, grant)) => {
                controller.break_off(grant);
                Err(refusal)
            }
        }
    }

    // Asks where the policy works an operation that is not possible.
    fn asked_astray(&self) -> Answer<Time> {
        let policy = Policy {
            entries: &STRAY,
            ..self.policy
        };
        let lock = self.lock(0);
        let mut controller = Desk { policy, ..*self }.open(&lock)?;
        let grant = controller.ask(0, &lock)?;
        let quote = grant.quote();
        controller.break_off(grant);
        Ok(Reply::Granted(quote))
    }

    // Steps over a lock of another port, which refuses the operation.
    fn stepped_abroad(&self, abroad: &Port) -> Answer<Time> {
        let mut lock = ScriptedLock::new(abroad, 0, &[]);
        let mut controller = self.open(&lock)?;
        let grant = controller.ask(0, &lock)?;
        let stepped = controller.step(&grant, &mut lock);
        gave_up(controller, grant, stepped)
    }
}

// What a step came to, after which the client gives up.
fn gave_up(
    controller: Controller<'_, Minutes>,
    grant: Grant<Time>,
    stepped: Result<u8, Refusal>,
) -> Answer<Time> {
    controller.break_off(grant);
    Ok(Reply::Worked(stepped?))
}

fn show(rt: &HostRuntime, call: &str, answer: Answer<Time>) -> anyhow::Result<()> {
    let told = Told::<Minutes>(answer);
    println!(rt; "  {call}: {told}")?;
    Ok(())
}

// Refusals by number, each with the call that is refused.
pub(crate) fn show_refusals(
    rt: &HostRuntime,
    port: &Port,
    policy: Policy<Time>,
) -> anyhow::Result<()> {
    let abroad = Port::new(rt.alloc())?;
    let desk = Desk { port, policy };
    println!(rt; "refusals")?;
    show(rt, "open with no room for the ranks", desk.opened_short())?;
    show(rt, "ask while a request is out", desk.asked_again())?;
    show(rt, "quote a request of another stage", desk.opened(0, 1))?;
    show(
        rt,
        "open over marks that are no condition",
        desk.opened(4, 0),
    )?;
    show(rt, "quote over marks that are no condition", desk.moved(4))?;
    show(rt, "open where the rank is not 0", desk.opened(3, 0))?;
    show(rt, "quote where no plan is", desk.moved(3))?;
    show(
        rt,
        "step where the request has arrived",
        desk.stepped_late(),
    )?;
    show(rt, "close where it has not", desk.closed_early())?;
    show(
        rt,
        "step with the grant of another controller",
        desk.stepped_elsewhere(),
    )?;
    show(
        rt,
        "ask where the policy's operation is not possible",
        desk.asked_astray(),
    )?;
    show(
        rt,
        "step over a lock of another port, which refuses",
        desk.stepped_abroad(&abroad),
    )
}
