// What a search knows, and what follows of it for each condition.
ghost use Rattle.std.specs.Prelude.{◌-◌};
ghost use Rattle.costs.specs.Costs.{most_joined};
ghost use Rattle.index.specs.Indexed.{count_of};
ghost use Rattle.search.specs.Steps.{Early, Spare};

use crate::Choice;
use costs::CostModel;
use index::MoveIndex;
use std::alloc::{AllocError, Global};
use tables::{cost_at, item_or};

// Where a search may work and is to end, and what each condition costs, if that is final.
#[derive(Drop)]
pub(crate) struct Known<'a, 'p, 'c, C: CostModel> {
    pub(crate) index: &'a MoveIndex<'p>,
    pub(crate) keep: &'a [bool],
    pub(crate) goal: &'a [bool],
    pub(crate) costs: &'c [Option<C::Cost>],
    // A move more may be joined onto each cost, but where every condition has one and none is above it.
    ghost early: { ∥ Early C.model C.exact (most_joined - 1) costs.now ∥₁ },
    ghost spare: { ∥ Spare C.model C.exact (count_of index.now) (most_joined - 1) costs.now ∥₁ },
}

impl<C: CostModel> Known<'_, '_, '_, C> {
    ghost use Rattle.std.specs.Prelude.{◌≡◌, ℕ, ◌<◌, true, length, IfOk, None, Decides};
    ghost use Rattle.costs.specs.Compare.{shown};
    ghost use Rattle.index.specs.Indexed.{moves_of};
    ghost use Rattle.index.specs.Indexes.{Apart};
    ghost use Rattle.plans.specs.Flags.{has};
    ghost use Rattle.search.specs.Labels.{Offered};
    ghost use Rattle.search.specs.Steps.{AllOffered, AllPicked, LowestAt, Picked};
    ghost use Rattle.tables.specs.Tables.{looked};

    // Whether `c` has no cost yet and may be worked in.
    fn is_open(&self, c: usize) -> bool
        ensures { Decides result ((looked C.exact self.now.costs.now c ≡ None) × (has self.now.keep.now c ≡ true)) }
    {
        cost_at(self.costs, c).is_none() && item_or(self.keep, c, false)
    }

    // What is on offer for `c`.
    fn offer(&self, c: usize) -> Option<C::Cost>
        ensures { Offered C.model (moves_of self.now.index.now) (has self.now.keep.now) (looked C.exact self.now.costs.now) c (shown C.exact result) }
    {
        if self.is_open(c) {
            self.cheapest(self.index.moves_from(c))
        } else {
            None
        }
    }

    // What is on offer for each condition.
    pub(crate) fn offers(&self, heap: Global) -> Result<Vec<Option<C::Cost>>, AllocError>
        ensures { IfOk result (λ v. (length v.items ≡ length self.now.costs.now) × AllOffered C.model (moves_of self.now.index.now) (has self.now.keep.now) (length self.now.costs.now) (looked C.exact self.now.costs.now) (looked C.exact v.items)) }
    {
        (0..self.costs.len()).map(|c| self.offer(c)).collect(heap)
    }

    // Makes anew what is on offer for each condition from which a move leads to `d`.
    pub(crate) fn renew(&self, offers: &mut [Option<C::Cost>], d: usize)
        requires { (c : ℕ) → c < length offers.old → Apart (moves_of self.now.index.now) c d → Offered C.model (moves_of self.now.index.now) (has self.now.keep.now) (looked C.exact self.now.costs.now) c (looked C.exact offers.old c) }
        ensures { AllOffered C.model (moves_of self.now.index.now) (has self.now.keep.now) (length offers.old) (looked C.exact self.now.costs.now) (looked C.exact offers.new) }
    {
        for (c, offer) in offers.iter_mut().enumerate() {
            if self.index.leads(c, d) {
                *offer = self.offer(c);
            }
        }
    }

    // The lowest operation that begins a cheapest plan from `c`, with the cost.
    fn work(&self, c: usize) -> Option<(u8, C::Cost)>
        ensures { LowestAt C.model C.exact (moves_of self.now.index.now) (looked C.exact self.now.costs.now) c result }
    {
        let cost = cost_at(self.costs, c)?;
        let lowest = self.operation(self.index.moves_from(c), cost)?;
        Some((lowest, cost))
    }

    // What to do at `c`, by what each condition costs.
    fn choose(&self, c: usize) -> Choice<C::Cost>
        ensures { Picked C.model C.exact (moves_of self.now.index.now) (looked C.exact self.now.costs.now) (has self.now.goal.now) c result }
    {
        if item_or(self.goal, c, false) {
            return Choice::There;
        }
        match self.work(c) {
            Some(work) => Choice::Work(work.0, work.1),
            None => Choice::None,
        }
    }

    // What to do at each condition.
    pub(crate) fn choices(&self, heap: Global) -> Result<Vec<Choice<C::Cost>>, AllocError>
        ensures { IfOk result (λ v. AllPicked C.model C.exact (moves_of self.now.index.now) (looked C.exact self.now.costs.now) (has self.now.goal.now) (length self.now.costs.now) v.items) }
    {
        (0..self.costs.len()).map(|c| self.choose(c)).collect(heap)
    }
}
