// The policy: for each request and condition the least worst-case cost, with the lowest operation that begins such a plan.
ghost use Rattle.std.specs.Prelude.{IfOk};
ghost use Rattle.rounds.specs.Rounds.{domain_in};
ghost use Rattle.rounds.specs.Verdicts.{GoalRows, KeepRows};
ghost use Rattle.solver.specs.Choices.{Chosen};

use costs::CostModel;
use index::MoveIndex;
use rounds::Task;
use search::{Choice, search};
use std::alloc::{AllocError, Global};

// The choices for each request, condition by condition.
pub(crate) fn choose_all<C: CostModel>(
    heap: Global,
    index: &MoveIndex,
    tasks: &[Task],
) -> Result<Vec<Choice<C::Cost>>, AllocError>
    requires keep { KeepRows (domain_in index.now) tasks.now }
    requires goals { GoalRows (domain_in index.now) tasks.now }
    ensures { IfOk result (λ v. Chosen C.model C.exact (domain_in index.now) v.items) }
{
    let mut choices = Vec::new(heap);
    for task in tasks {
        let row = search::<C>(heap, index, &task.keep, &task.goal)?;
        choices.extend_from_slice(&row)?;
    }
    Ok(choices)
}
