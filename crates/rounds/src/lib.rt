// Judges a port: which pairs of stage and condition are kept, the rank of each, and where each request may be worked and may end.
#![tactic(auto)]

mod judging;
mod rows;
mod stages;
mod tasks;

pub use judging::{Verdict, judge};
pub use tasks::Task;
