// What a controller goes by, and never changes.
ghost use Rattle.std.specs.Prelude.{◌≡◌, ◌+◌, ◌*◌, length};
ghost use Rattle.port.specs.Model.{model_of};
ghost use Rattle.plans.specs.Domains.{domain_of};
ghost use Rattle.plans.specs.Flags.{task_at};
ghost use Rattle.solver.specs.Solving.{enough};
ghost use Rattle.histories.specs.Calls.{offered};
ghost use Rattle.control.specs.Worlds.{terms_world};

use crate::policy::Policy;
use costs::CostModel;
use port::Port;
use solver::{Entry, has_room};
use tables::item_or;

// A port, and a policy for it.
#[derive(Drop)]
pub(crate) struct Terms<'a, C: CostModel> {
    pub(crate) port: &'a Port,
    pub(crate) policy: Policy<'a, C::Cost>,
}

impl<'a, C: CostModel> Terms<'a, C> {
    // Whether the tables have room for the port.
    pub(crate) fn has_tables(&self) -> bool
        ensures { result ≡ enough (domain_of (model_of self.now.port.now)) self.now.policy.entries.now self.now.policy.costs.now self.now.policy.ranks.now }
    {
        has_room(
            self.port,
            self.policy.entries.len(),
            self.policy.costs.len(),
            self.policy.ranks.len(),
        )
    }

    // Whether a request is one of a stage.
    pub(crate) fn offers(&self, stage: u8, request: u8) -> bool
        ensures { result ≡ offered (terms_world C.model C.exact self.now) stage request }
    {
        self.port
            .requests
            .get(request as usize)
            .is_some_and(|r| r.from == stage)
    }

    // The stage that a request leads to.
    pub(crate) fn target(&self, request: u8) -> u8
        ensures { result ≡ (task_at (domain_of (model_of self.now.port.now)) request).to }
    {
        self.port.requests.get(request as usize).map_or(0, |r| r.to)
    }

    // The place in a table that has a row for each request or stage, and a column for each condition.
    // Stays: a rule of the project: the tables are flat, any caller's slices, so that a place in them is a sum.
    fn place(&self, row: u8, condition: u8) -> usize
        ensures { result ≡ row * length (model_of self.now.port.now).conditions + condition }
    {
        row as usize * self.port.conditions.len() + condition as usize
    }

    pub(crate) fn entry(&self, request: u8, condition: u8) -> Entry
        ensures { result ≡ (terms_world C.model C.exact self.now).entry request condition }
    {
        item_or(
            self.policy.entries,
            self.place(request, condition),
            Entry::None,
        )
    }

    pub(crate) fn cost(&self, request: u8, condition: u8) -> C::Cost
        ensures { C.exact result ≡ (terms_world C.model C.exact self.now).cost request condition }
    {
        item_or(self.policy.costs, self.place(request, condition), C::zero())
    }

    pub(crate) fn rank(&self, stage: u8, condition: u8) -> u16
        ensures { result ≡ (terms_world C.model C.exact self.now).rank stage condition }
    {
        item_or(self.policy.ranks, self.place(stage, condition), 0)
    }
}
