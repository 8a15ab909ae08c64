// What a run costs: cost models, the two that there are, and how costs are compared.
#![tactic(auto)]

mod compare;
mod model;
mod models;

pub use compare::{comes_to, extend, lower, under};
pub use model::{CostModel, Named};
pub use models::{Count, Minutes, MoveCount, Time};
