// What a load's error is printed as.
ghost use Rattle.std.specs.Prelude.{Some};
ghost use Rattle.faults.specs.Faults.{error_text};

use crate::errors::LoadError;
use std::error::Error;
use std::fmt;

impl fmt::Display for LoadError {
    ghost output = { λ e. Some (error_text e) };

    fn fmt<W: fmt::Write>(&self, f: &mut fmt::Formatter<W>) -> fmt::Result {
        match *self {
            LoadError::Fault { fault, records } => {
                let (number, layer, place) = (fault.number(), fault.layer(), fault.place());
                write!(
                    f,
                    "fault {number} layer {layer} at {place} record {records}"
                )
            }
            LoadError::Memory => f.write_str("no memory"),
        }
    }
}

impl Error for LoadError {}
