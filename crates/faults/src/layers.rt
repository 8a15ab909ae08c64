// What can be wrong with a sheet, layer by layer. Each fault has a number and a place.
ghost use Rattle.std.specs.Prelude.{◌≡◌};
ghost use Rattle.faults.specs.declared.layers.RecordFault.TheVariants.{Byte, Formula};
ghost use Rattle.faults.specs.declared.layers.PortFault.TheVariants.{Record};

use formula::FormulaFault;

// Layer 1: bytes.
#[derive(Clone, Copy, Debug, PartialEq)]
pub enum ByteFault {
    // 1: the bytes end early; the place is their length.
    Ends(usize),
    // 2: the opening bytes are there but differ; at place 0.
    Opening,
}

// Layer 3: a record is not written as records are. It carries the faults of layer 1 and of formulas, layer 2.
#[derive(Clone, Copy, Debug, PartialEq)]
pub enum RecordFault {
    Byte(ByteFault),
    // 10: a text is no formula over the port's marks; the place is the first byte where none can go on.
    Formula(FormulaFault),
    // 4: the kind is unknown, or lower than the one before.
    Kind(usize),
    // 5: an undefined bit of the map stands.
    Map(usize),
    // 6: a field that is present holds its absent value.
    Absent(usize),
}

// Layer 4: the records do not make a port.
#[derive(Clone, Copy, Debug, PartialEq)]
pub enum PortFault {
    Record(RecordFault),
    // 3: a count of the header is outside its limits, or the start stage does not exist.
    Count(usize),
    // 7: a mark, condition, operation or stage does not exist, or a text's length is 0 or over 63.
    // The place of a field that is absent is its map byte.
    Missing(usize),
    // 8: the sequence does not rise; the place is the kind byte.
    Sequence(usize),
    // 9: there are too many of the kind; the place is the kind byte.
    Many(usize),
    // 11: the start condition does not exist; at place 8.
    Start,
}

// Stays: thiserror would write these, but with nothing in `from_gives`, by which a clause knows what a `?` made.
impl From<ByteFault> for RecordFault {
    ghost from_gives = { λ e r. r ≡ Byte e };

    fn from(e: ByteFault) -> RecordFault {
        RecordFault::Byte(e)
    }
}

impl From<FormulaFault> for RecordFault {
    ghost from_gives = { λ e r. r ≡ Formula e };

    fn from(e: FormulaFault) -> RecordFault {
        RecordFault::Formula(e)
    }
}

impl From<RecordFault> for PortFault {
    ghost from_gives = { λ e r. r ≡ Record e };

    fn from(e: RecordFault) -> PortFault {
        PortFault::Record(e)
    }
}

impl From<ByteFault> for PortFault {
    ghost from_gives = { λ e r. r ≡ Record (Byte e) };

    fn from(e: ByteFault) -> PortFault {
        PortFault::Record(RecordFault::from(e))
    }
}
