// What an operation comes to, by what the outcomes of its moves cost.
ghost use Rattle.std.specs.Prelude.{◌≡◌, ◌-◌, Decides};
ghost use Rattle.costs.specs.Compare.{shown};
ghost use Rattle.costs.specs.Costs.{most_joined};
ghost use Rattle.index.specs.Indexes.{Ordered};
ghost use Rattle.port.specs.Limits.{In};
ghost use Rattle.search.specs.Groups.{Lowest};
ghost use Rattle.search.specs.Labels.{After, By, Cheapest, FewAfter, FewBelow, Greatest, Worst};
ghost use Rattle.tables.specs.Tables.{looked};

use crate::groups::Groups;
use crate::known::Known;
use costs::{CostModel, comes_to, extend, lower};
use port::Move;
use tables::{all_below, cost_after};

impl<C: CostModel> Known<'_, '_, '_, C> {
    // The greatest of the moves, each joined onto what its outcome costs, where there is one and each outcome has a cost.
    fn worst(&self, moves: &[Move]) -> Option<C::Cost>
        requires { ∥ FewAfter C.model C.exact self.now.costs.now moves.now ∥₁ }
        ensures { Greatest C.model (looked C.exact self.now.costs.now) moves.now (shown C.exact result) }
    {
        let mut top = None;
        // Stays: a `try_fold` would have the same two steps, and the same `?`, in its closure.
        for m in moves {
            let c = cost_after(self.costs, m)?;
            top = Some(extend::<C>(m, c, top));
        }
        top
    }

    // Whether the greatest of the moves, each joined onto what its outcome costs, is `cost`. Nothing is joined unless each outcome costs less.
    fn attains(&self, moves: &[Move], cost: C::Cost) -> bool
        requires { ∥ FewBelow C.model C.exact (most_joined - 1) self.now.costs.now (C.exact cost) ∥₁ }
        ensures { Decides result (Worst C.model (After (looked C.exact self.now.costs.now)) (λ m. In m moves.now) (C.exact cost)) }
    {
        all_below::<C>(moves, self.costs, cost) && comes_to::<C>(self.worst(moves), cost)
    }

    // The least that an operation comes to, of moves in order of operation.
    pub(crate) fn cheapest(&self, moves: &[Move]) -> Option<C::Cost>
        requires ordered { Ordered moves.now }
        requires few { ∥ FewAfter C.model C.exact self.now.costs.now moves.now ∥₁ }
        ensures { Cheapest C.model (looked C.exact self.now.costs.now) (By moves.now) (shown C.exact result) }
    {
        let mut low = None;
        for group in (Groups { rest: moves }) {
            low = lower::<C>(self.worst(group), low);
        }
        low
    }

    // The lowest operation that comes to `cost`, of moves in order of operation.
    pub(crate) fn operation(&self, moves: &[Move], cost: C::Cost) -> Option<u8>
        requires ordered { Ordered moves.now }
        requires few { ∥ FewBelow C.model C.exact (most_joined - 1) self.now.costs.now (C.exact cost) ∥₁ }
        ensures { Lowest C.model (looked C.exact self.now.costs.now) moves.now (C.exact cost) result }
    {
        for group in (Groups { rest: moves }) {
            if self.attains(group, cost) {
                return Some(group[0].operation);
            }
        }
        None
    }
}
