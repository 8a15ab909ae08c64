// Reads the bytes of a sheet one after another: its header, and the fields of its records.
#![tactic(auto)]

mod bytes;
mod fields;
mod header;
mod reader;
mod text;

pub use reader::Reader;
pub use text::SheetText;
