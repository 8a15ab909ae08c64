// The kinds of records.
ghost use Rattle.std.specs.Prelude.{◌≡◌, ◌+◌, ◌<◌, nat_lt};
ghost use Rattle.reading.specs.Reading.{map_limit};
ghost use Rattle.records.specs.Kinds.{Decodes, bit_number, kind_number};

// The kinds, by the bytes that stand for them.
#[derive(Clone, Copy, Debug, PartialEq)]
pub enum Kind {
    Condition = 1,
    Move = 2,
    Request = 3,
}

// The bits of a map, from the lowest. Each tells whether a field is there.
#[derive(Clone, Copy, Debug, PartialEq)]
pub(crate) enum Bit {
    First,
    Second,
    Third,
    Fourth,
}

impl Bit {
    // Which bit it is.
    pub(crate) fn number(self) -> u8
        ensures few { result < 8 }
        ensures bit { result ≡ bit_number self }
    {
        self as u8
    }
}

// A byte that stands for no kind.
#[derive(Clone, Copy, Debug, PartialEq)]
pub struct UnknownKind;

impl TryFrom<u8> for Kind {
    type Error = UnknownKind;

    ghost try_from_gives = { Decodes };

    fn try_from(byte: u8) -> Result<Kind, UnknownKind> {
        match byte {
            1 => Ok(Kind::Condition),
            2 => Ok(Kind::Move),
            3 => Ok(Kind::Request),
            _ => Err(UnknownKind),
        }
    }
}

impl Kind {
    // The bits of the map that have a field.
    fn defined(self) -> u8
        ensures { result + 1 ≡ map_limit (kind_number self) }
    {
        match self {
            Kind::Condition => 0b0011,
            Kind::Move | Kind::Request => 0b1111,
        }
    }

    // Whether every bit of the map has a field: the fields that it counts are then as many as its ones.
    pub(crate) fn has_fields(self, map: u8) -> bool
        ensures { result ≡ nat_lt map (map_limit (kind_number self)) }
    {
        (map & self.defined()).count_ones() == map.count_ones()
    }
}
