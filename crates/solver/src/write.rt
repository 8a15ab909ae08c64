// What choices are in a policy's tables, and what the ranks come to.
ghost use Rattle.std.specs.Prelude.{◌≡◌, IfOk, map};
ghost use Rattle.solver.specs.Choices.{choice_entry, exact_of};
ghost use Rattle.solver.specs.Solving.{largest_of, zeros};

use crate::Entry;
use costs::CostModel;
use search::Choice;
use std::alloc::{AllocError, Global};

impl<K: Copy> From<Choice<K>> for Entry {
    ghost from_gives = { λ choice entry. entry ≡ choice_entry choice };

    fn from(choice: Choice<K>) -> Entry {
        match choice {
            Choice::None => Entry::None,
            Choice::There => Entry::There,
            Choice::Work(operation, _) => Entry::Work(operation),
        }
    }
}

// The cost of a choice: none where there is nothing to work.
fn cost_of<C: CostModel>(choice: Choice<C::Cost>) -> C::Cost
    ensures { C.exact result ≡ exact_of C.model C.exact choice }
{
    match choice {
        Choice::None | Choice::There => C::zero(),
        Choice::Work(_, cost) => cost,
    }
}

// The entry of each choice.
pub(crate) fn entries_of<K: Copy>(
    heap: Global,
    choices: &[Choice<K>],
) -> Result<Vec<Entry>, AllocError>
    ensures { IfOk result (λ v. v.items ≡ map choice_entry choices.now) }
{
    choices
        .iter()
        .map(|choice| Entry::from(*choice))
        .collect(heap)
}

// The cost of each choice.
pub(crate) fn costs_of<C: CostModel>(
    heap: Global,
    choices: &[Choice<C::Cost>],
) -> Result<Vec<C::Cost>, AllocError>
    ensures { IfOk result (λ v. map C.exact v.items ≡ map (exact_of C.model C.exact) choices.now) }
{
    choices
        .iter()
        .map(|choice| cost_of::<C>(*choice))
        .collect(heap)
}

// How many of the ranks are 0.
pub(crate) fn count_kept(ranks: &[u16]) -> usize
    ensures { result ≡ zeros ranks.now }
{
    ranks.iter().filter(|rank| **rank == 0).count()
}

// The largest of the ranks: 0 where there is none.
pub(crate) fn largest(ranks: &[u16]) -> u16
    ensures { result ≡ largest_of ranks.now }
{
    ranks.iter().copied().max().unwrap_or(0)
}
