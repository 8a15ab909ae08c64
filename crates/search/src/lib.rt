// The cheapest plan from each condition of a port to a goal, under any cost model that keeps the laws.
#![tactic(auto)]

mod groups;
mod known;
mod labelling;
mod operations;

pub use costs::{CostModel, Count, Minutes, MoveCount, Named, Time};
pub use index::MoveIndex;
pub use labelling::search;

// What to do in a condition: there is no plan, the goal holds, or work an operation at this cost.
// Stays: three cases, which readers group in different ways (no plan or some; no work or some), so that no one Option fits.
#[derive(Clone, Copy)]
pub enum Choice<K> {
    None,
    There,
    Work(u8, K),
}
