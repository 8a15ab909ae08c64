// Solves a port: ranks of its pairs, and a policy for its requests.
ghost use Rattle.std.specs.Prelude.{◌≡◌, ◌+◌, ◌*◌, ◌&&◌, length, IfOk, nat_le, slice_index};
ghost use Rattle.plans.specs.Domains.{domain_of};
ghost use Rattle.port.specs.Model.{model_of};
ghost use Rattle.solver.specs.Solving.{Outcome, RightSolution, Tabled, largest_of, pairs_of, places_of, start_of, zeros};
ghost use Rattle.solver.specs.declared.SolveError.TheVariants.{Memory};

use crate::policy::choose_all;
use crate::write::{costs_of, count_kept, entries_of, largest};
use crate::{Entry, SolveError, Summary, Tables};
use costs::CostModel;
use port::Port;
use rounds::{Verdict, judge};
use search::Choice;
use std::alloc::{AllocError, Global};

// What a port comes to, before it is written to the caller's buffers.
#[derive(Drop)]
struct Solution<K: Copy> {
    choices: Vec<Choice<K>>,
    ranks: Vec<u16>,
}

// Stays: by hand, since a derived `From` says nothing in `from_gives`, by which a clause knows what a `?` made.
impl From<AllocError> for SolveError {
    ghost from_gives = { λ _ r. r ≡ Memory };

    fn from(_e: AllocError) -> SolveError {
        SolveError::Memory
    }
}

fn work_out<C: CostModel>(heap: Global, port: &Port) -> Result<Solution<C::Cost>, AllocError>
    ensures { IfOk result (λ s. RightSolution C.model C.exact (domain_of (model_of port.now)) s.choices.items s.ranks.items) }
{
    let Verdict {
        index,
        tasks,
        ranks,
    } = judge(heap, port)?;
    let choices = choose_all::<C>(heap, &index, &tasks)?;
    Ok(Solution { choices, ranks })
}

// How many places the port has in a policy: one for each request and condition.
pub fn place_count(port: &Port) -> usize
    ensures { result ≡ places_of (domain_of (model_of port.now)) }
{
    port.requests.len() * port.conditions.len()
}

// How many pairs of stage and condition the port has.
pub fn pair_count(port: &Port) -> usize
    ensures { result ≡ pairs_of (domain_of (model_of port.now)) }
{
    port.header.stages as usize * port.conditions.len()
}

// Whether buffers of these lengths have room for the port.
pub fn has_room(port: &Port, entries: usize, costs: usize, ranks: usize) -> bool
    ensures { result ≡ (nat_le (places_of (domain_of (model_of port.now))) entries && (nat_le (places_of (domain_of (model_of port.now))) costs && nat_le (pairs_of (domain_of (model_of port.now))) ranks)) }
{
    let (places, pairs) = (place_count(port), pair_count(port));
    places <= entries && places <= costs && pairs <= ranks
}

// What the ranks of a port come to.
fn summarize(port: &Port, ranks: &[u16]) -> Summary
    requires { length ranks.now ≡ pairs_of (domain_of (model_of port.now)) }
    ensures kept { result.kept ≡ zeros ranks.now }
    ensures rounds { result.rounds ≡ largest_of ranks.now }
    ensures start { result.start ≡ slice_index ranks.now (start_of (model_of port.now)) }
{
    // Stays: a rule of the project: ranks are handed out flat, so that a place among them is a sum.
    let start = port.header.stage as usize * port.conditions.len() + port.header.condition as usize;
    Summary {
        kept: count_kept(ranks),
        rounds: largest(ranks),
        start: ranks[start],
    }
}

// Solves the port under a cost model, into tables of its own.
pub fn solved<C: CostModel>(heap: Global, port: &Port) -> Result<Tables<C::Cost>, AllocError>
    ensures { IfOk result (λ t. Tabled (domain_of (model_of port.now)) C.model C.exact (start_of (model_of port.now)) t.entries.items t.costs.items t.ranks.items t.summary) }
{
    let Solution { choices, ranks } = work_out::<C>(heap, port)?;
    let entries = entries_of(heap, &choices)?;
    let costs = costs_of::<C>(heap, &choices)?;
    let summary = summarize(port, &ranks);
    Ok(Tables {
        entries,
        costs,
        ranks,
        summary,
    })
}

// Solves the port under a cost model. Entries and costs go by request, ranks by stage, and then each by condition; places past
// these stay as they were. A buffer that is too short is refused before anything is written, and so is want of memory.
// Stays: a rule of the project: the call fills buffers of the caller, and refuses one that is too short.
pub fn solve<C: CostModel>(
    heap: Global,
    port: &Port,
    entries: &mut [Entry],
    costs: &mut [C::Cost],
    ranks: &mut [u16],
) -> Result<Summary, SolveError>
    ensures { Outcome (domain_of (model_of port.now)) C.model C.exact (start_of (model_of port.now)) entries.old entries.new costs.old costs.new ranks.old ranks.new result }
{
    if !has_room(port, entries.len(), costs.len(), ranks.len()) {
        return Err(SolveError::Short);
    }
    let tables = solved::<C>(heap, port)?;
    entries[..tables.entries.len()].copy_from_slice(&tables.entries);
    costs[..tables.costs.len()].copy_from_slice(&tables.costs);
    ranks[..tables.ranks.len()].copy_from_slice(&tables.ranks);
    Ok(tables.summary)
}
