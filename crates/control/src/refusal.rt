// Why a call is refused.
ghost use Rattle.std.specs.Prelude.{◌≡◌, Some};
ghost use Rattle.control.specs.Numbers.{refusal_number, refusal_text};

use std::error::Error;
use std::fmt;

#[derive(Clone, Copy, Debug, PartialEq, Eq)]
pub enum Refusal {
    // A table is too short for the port.
    Short = 12,
    // A grant is out.
    AlreadyOut = 21,
    // The request is not one of this stage.
    NotOffered = 22,
    // The lock's marks are no condition of the port.
    NoCondition = 23,
    // The rank of the start is not 0.
    Dropped = 24,
    // The entry is none.
    NoPlan = 25,
    // The entry is there.
    Arrived = 26,
    // The entry is not there.
    NotArrived = 27,
    // The grant's request is not out on this controller.
    NotOut = 28,
    // The entry is no operation possible there, or the lock refuses it.
    Stuck = 29,
}

impl Refusal {
    // Stays: a rule of the project: docs/CONTROL.md knows a refusal by its number.
    pub fn number(self) -> u8
        ensures { result ≡ refusal_number self }
    {
        self as u8
    }
}

impl fmt::Display for Refusal {
    ghost output = { λ r. Some (refusal_text r) };

    fn fmt<W: fmt::Write>(&self, f: &mut fmt::Formatter<W>) -> fmt::Result {
        let number = self.number();
        write!(f, "refused {number}")
    }
}

impl Error for Refusal {}
