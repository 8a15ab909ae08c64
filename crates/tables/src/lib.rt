// A table has for each condition a cost or none: what is read from it, and its least.
#![tactic(auto)]

ghost use Rattle.std.specs.Prelude.{◌≡◌, length, Some, None, Decides, slice_index_or};
ghost use Rattle.costs.specs.Compare.{shown, under_of};
ghost use Rattle.tables.specs.Tables.{AllBelow, LeastOf, looked};

use costs::{CostModel, under};
use port::Move;

// A condition with a cost.
#[derive(Clone, Copy)]
pub struct Label<K> {
    pub condition: usize,
    pub cost: K,
}

// What a list has at `i`: past its end, `other`.
pub fn item_or<T: Copy>(items: &[T], i: usize, other: T) -> T
    ensures { result ≡ slice_index_or items.now i other }
{
    items.get(i).copied().unwrap_or(other)
}

// What a table has for `c`: past its end, nothing.
pub fn cost_at<K: Copy>(costs: &[Option<K>], c: usize) -> Option<K>
    ensures { result ≡ slice_index_or costs.now c None }
{
    item_or(costs, c, None)
}

// What is left to pay after a move: what its outcome costs.
pub fn cost_after<K: Copy>(costs: &[Option<K>], m: &Move) -> Option<K>
    ensures { result ≡ slice_index_or costs.now m.now.outcome None }
{
    cost_at(costs, usize::from(m.outcome))
}

// Whether a move leads to a cost below `cost`.
fn leads_below<C: CostModel>(costs: &[Option<C::Cost>], m: &Move, cost: C::Cost) -> bool
    ensures { result ≡ under_of C.model (looked C.exact costs.now m.now.outcome) (Some (C.exact cost)) }
{
    under::<C>(cost_after(costs, m), Some(cost))
}

// Whether each of the moves leads to a cost below `cost`.
pub fn all_below<C: CostModel>(moves: &[Move], costs: &[Option<C::Cost>], cost: C::Cost) -> bool
    ensures { Decides result (AllBelow C.model (looked C.exact costs.now) moves.now (C.exact cost)) }
{
    moves.iter().all(|m| leads_below::<C>(costs, m, cost))
}

// Whether a cost is below that of the best label so far, or there is none yet.
// Stays: beside `under` of two costs: to go by that, a label would be taken apart and a cost put into an Option first.
fn is_better<C: CostModel>(cost: C::Cost, best: Option<Label<C::Cost>>) -> bool
    ensures { result ≡ under_of C.model (Some (C.exact cost)) (shown (λ b. C.exact b.cost) best) }
{
    best.is_none_or(|best| C::less(cost, best.cost))
}

// The least offer, with its condition: where several are as low, one of these.
pub fn least<C: CostModel>(offers: &[Option<C::Cost>]) -> Option<Label<C::Cost>>
    ensures { LeastOf C.model C.exact offers.now (length offers.now) result }
{
    let mut best = None;
    for (condition, &offer) in offers.iter().enumerate() {
        if let Some(cost) = offer
            && is_better::<C>(cost, best)
        {
            best = Some(Label { condition, cost });
        }
    }
    best
}
