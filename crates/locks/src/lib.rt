// Locks: what a lock is to whoever works it, and two of them.
#![tactic(auto)]

mod least;
mod lock;
mod places;
mod scripted;

pub use least::LeastChangeLock;
pub use lock::Lock;
pub use places::{condition_of, is_possible, lookups_stand};
pub use scripted::ScriptedLock;
