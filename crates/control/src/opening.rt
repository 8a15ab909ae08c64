// How a controller is opened.
ghost use Rattle.std.specs.Prelude.{◌≡◌, ℕ, IfOk, Some, None, MatchResult};
ghost use Rattle.port.specs.Model.{model_of};
ghost use Rattle.solver.specs.Policy.{Solved};
ghost use Rattle.histories.specs.Calls.{refusal};
ghost use Rattle.histories.specs.Promise.{Opening, Promised};
ghost use Rattle.control.specs.Numbers.{refusal_number};
ghost use Rattle.control.specs.States.{at_of, state};
ghost use Rattle.control.specs.Worlds.{opening_rules, place_in, world};

use crate::controller::Controller;
use crate::policy::Policy;
use crate::refusal::Refusal;
use crate::terms::Terms;
use costs::CostModel;
use locks::{Lock, condition_of};
use port::Port;

impl<'a, C: CostModel> Controller<'a, C> {
    // Opens a controller at the port's start stage, over a lock that stands there in a condition of rank 0. Where policy and ranks are as
    // solving leaves them, every history of calls from here on a lock of this port has the promise, and the opening, if no table is too short
    // for the port, is refused exactly where no simulation holds the start.
    pub fn open<L: Lock>(
        port: &'a Port,
        policy: Policy<'a, C::Cost>,
        lock: &L,
    ) -> Result<Controller<'a, C>, Refusal>
        ensures opened { MatchResult result (λ k. (k.terms.port ≡ port.entry) × (k.terms.policy ≡ policy.entry) × (k.stage ≡ port.now.header.stage) × (k.out ≡ None) × (refusal (opening_rules C.model C.exact port.now policy.entry (L.present lock.now)) ≡ None)) (λ e. refusal (opening_rules C.model C.exact port.now policy.entry (L.present lock.now)) ≡ Some (refusal_number e)) }
        ensures promised { IfOk result (λ k. Solved (world C.model C.exact port.now policy.entry) → Promised (world C.model C.exact port.now policy.entry) (at_of (model_of port.now).conditions (state k.stage k.out (L.present lock.now)))) }
        ensures opening { Solved (world C.model C.exact port.now policy.entry) → (c : ℕ) → place_in port.now (L.present lock.now) ≡ Some c → Opening (world C.model C.exact port.now policy.entry) port.now.header.stage c }
    {
        let terms = Terms { port, policy };
        if !terms.has_tables() {
            return Err(Refusal::Short);
        }
        let stage = port.header.stage;
        let condition = condition_of(port, lock.marks()).ok_or(Refusal::NoCondition)?;
        if terms.rank(stage, condition) != 0 {
            return Err(Refusal::Dropped);
        }
        Ok(Controller {
            terms,
            stage,
            out: None,
        })
    }
}
