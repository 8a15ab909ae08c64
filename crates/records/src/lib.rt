// Reads the records of a sheet, each against what the header and the records before it tell.
#![tactic(auto)]

mod draft;
mod judge;
mod kinds;
mod records;

pub use draft::Draft;
pub use records::{Record, RequestAt, read_record};
