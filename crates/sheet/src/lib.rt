// Reads a sheet of bytes into a port, or tells why the sheet is refused.
#![tactic(auto)]

mod build;
mod loader;

pub use faults::{ByteFault, LoadError, PortFault, RecordFault};
pub use loader::load;
