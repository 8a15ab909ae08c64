// Why a load did not come about.
ghost use Rattle.std.specs.Prelude.{◌≡◌};
ghost use Rattle.faults.specs.declared.errors.LoadError.TheVariants.{Fault, Memory};

use crate::layers::PortFault;
use std::alloc::AllocError;

#[derive(Clone, Copy, Debug, PartialEq)]
pub enum LoadError {
    // A fault of the sheet, and how many records were read whole before it.
    Fault { fault: PortFault, records: usize },
    // Want of memory.
    Memory,
}

// A fault before the first record.
// Stays: by hand, since a derived `From` says nothing in `from_gives`, by which a clause knows what a `?` made.
impl From<PortFault> for LoadError {
    ghost from_gives = { λ e r. r ≡ Fault e 0 };

    fn from(e: PortFault) -> LoadError {
        LoadError::Fault {
            fault: e,
            records: 0,
        }
    }
}

impl From<AllocError> for LoadError {
    ghost from_gives = { λ _ r. r ≡ Memory };

    fn from(_e: AllocError) -> LoadError {
        LoadError::Memory
    }
}
