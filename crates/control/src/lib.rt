// A controller carries out a policy at a lock: it quotes, grants, steps and closes, and refuses by number.
#![tactic(auto)]

mod answer;
mod calls;
mod controller;
mod grant;
mod opening;
mod policy;
mod refusal;
mod terms;
mod tour;

pub use answer::{Answer, Reply};
pub use controller::Controller;
pub use grant::Grant;
pub use policy::Policy;
pub use refusal::Refusal;
pub use tour::{OutingError, outing};
