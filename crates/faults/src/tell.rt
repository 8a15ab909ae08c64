// The number, the place and the layer of a fault. A fault that is carried keeps its own.
ghost use Rattle.std.specs.Prelude.{◌≡◌};
ghost use Rattle.faults.specs.Faults.{
  byte_layer,
  byte_number,
  byte_place,
  fault_layer,
  fault_number,
  fault_place,
  record_layer,
  record_number,
  record_place,
};

use crate::layers::{ByteFault, PortFault, RecordFault};

// Stays: a rule of the project: a fault is told by its number and the number of its layer, which docs/FORMAT.md has.

// The layers, by their numbers.
#[derive(Clone, Copy, Debug, PartialEq)]
enum Layer {
    Bytes = 1,
    Formulas = 2,
    Records = 3,
    Port = 4,
}

impl ByteFault {
    pub fn number(self) -> u8
        ensures { result ≡ byte_number self }
    {
        match self {
            ByteFault::Ends(_) => 1,
            ByteFault::Opening => 2,
        }
    }

    pub fn place(self) -> usize
        ensures { result ≡ byte_place self }
    {
        match self {
            ByteFault::Ends(place) => place,
            ByteFault::Opening => 0,
        }
    }

    pub fn layer(self) -> u8
        ensures { result ≡ byte_layer self }
    {
        Layer::Bytes as u8
    }
}

impl RecordFault {
    pub fn number(self) -> u8
        ensures { result ≡ record_number self }
    {
        match self {
            RecordFault::Byte(fault) => fault.number(),
            RecordFault::Formula(_) => 10,
            RecordFault::Kind(_) => 4,
            RecordFault::Map(_) => 5,
            RecordFault::Absent(_) => 6,
        }
    }

    pub fn place(self) -> usize
        ensures { result ≡ record_place self }
    {
        match self {
            RecordFault::Byte(fault) => fault.place(),
            RecordFault::Formula(fault) => fault.place,
            RecordFault::Kind(place) | RecordFault::Map(place) | RecordFault::Absent(place) =>
                place,
        }
    }

    pub fn layer(self) -> u8
        ensures { result ≡ record_layer self }
    {
        match self {
            RecordFault::Byte(fault) => fault.layer(),
            RecordFault::Formula(_) => Layer::Formulas as u8,
            _ => Layer::Records as u8,
        }
    }
}

impl PortFault {
    pub fn number(self) -> u8
        ensures { result ≡ fault_number self }
    {
        match self {
            PortFault::Record(fault) => fault.number(),
            PortFault::Count(_) => 3,
            PortFault::Missing(_) => 7,
            PortFault::Sequence(_) => 8,
            PortFault::Many(_) => 9,
            PortFault::Start => 11,
        }
    }

    pub fn place(self) -> usize
        ensures { result ≡ fault_place self }
    {
        match self {
            PortFault::Record(fault) => fault.place(),
            PortFault::Count(place)
            | PortFault::Missing(place)
            | PortFault::Sequence(place)
            | PortFault::Many(place) => place,
            PortFault::Start => 8,
        }
    }

    pub fn layer(self) -> u8
        ensures { result ≡ fault_layer self }
    {
        match self {
            PortFault::Record(fault) => fault.layer(),
            _ => Layer::Port as u8,
        }
    }
}
