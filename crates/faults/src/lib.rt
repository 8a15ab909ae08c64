// What can be wrong with a sheet, layer by layer, and what a fault tells: its number, its place and its layer.
#![tactic(auto)]

mod errors;
mod layers;
mod show;
mod tell;

pub use errors::LoadError;
pub use layers::{ByteFault, PortFault, RecordFault};
