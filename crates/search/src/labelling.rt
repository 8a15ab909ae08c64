// The search: conditions become final in order of cost.
ghost use Rattle.std.specs.Prelude.{IfOk};
ghost use Rattle.index.specs.Indexed.{count_of, moves_of};
ghost use Rattle.plans.specs.Flags.{has};
ghost use Rattle.search.specs.Answers.{Answers};
ghost use Rattle.search.specs.Steps.{Settled, Started};

use crate::Choice;
use crate::known::Known;
use costs::CostModel;
use index::MoveIndex;
use std::alloc::{AllocError, Global};
use tables::{item_or, least};

// What each condition costs at first: only the goal has a cost.
fn begin<C: CostModel>(
    heap: Global,
    conditions: usize,
    goal: &[bool],
) -> Result<Vec<Option<C::Cost>>, AllocError>
    ensures { IfOk result (λ v. Started C.model C.exact (has goal.now) conditions v.items) }
{
    (0..conditions)
        .map(|c| item_or(goal, c, false).then_some(C::zero()))
        .collect(heap)
}

// The least cost of a plan from each condition to the goal, or none where there is no plan.
// Stays: index, keep and goal as parameters, as in the public call. `Known` is made of them anew at each turn, since it lends the costs that
// the loop changes.
fn solve<'a, C: CostModel>(
    heap: Global,
    index: &'a MoveIndex,
    keep: &'a [bool],
    goal: &'a [bool],
) -> Result<Vec<Option<C::Cost>>, AllocError>
    ensures { IfOk result (λ v. Settled C.model C.exact (moves_of index.now) (has keep.now) (has goal.now) (count_of index.now) v.items) }
{
    let mut costs = begin::<C>(heap, index.conditions(), goal)?;
    let known = Known::<C> {
        index,
        keep,
        goal,
        costs: &costs,
    };
    // Stays: beside the costs, and not a row of pairs, since the costs are lent while the offers are written.
    let mut offers = known.offers(heap)?;
    // Stays: the offers change with each label, so that no iterator can go over them.
    while let Some(label) = least::<C>(&offers) {
        costs[label.condition] = Some(label.cost);
        offers[label.condition] = None;
        let known = Known::<C> {
            index,
            keep,
            goal,
            costs: &costs,
        };
        known.renew(&mut offers, label.condition);
    }
    Ok(costs)
}

// For each condition the least cost of a plan that works only in conditions of `keep` and ends in one of `goal`, with the lowest operation that begins such a plan.
pub fn search<C: CostModel>(
    heap: Global,
    index: &MoveIndex,
    keep: &[bool],
    goal: &[bool],
) -> Result<Vec<Choice<C::Cost>>, AllocError>
    ensures { IfOk result (λ v. Answers (count_of index.now) C.model C.exact (moves_of index.now) keep.now goal.now v.items) }
{
    let (index, keep, goal) = (&*index, &*keep, &*goal);
    let costs = solve::<C>(heap, index, keep, goal)?;
    let known = Known::<C> {
        index,
        keep,
        goal,
        costs: &costs,
    };
    known.choices(heap)
}
