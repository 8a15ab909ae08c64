// What the header and the records read so far tell of a port.
ghost use Rattle.std.specs.Prelude.{◌≤◌};
ghost use Rattle.port.specs.Numbers.{most_marks};

use port::{Header, Move, Request};

// Stays: beside `Port`, whose invariants hold only when every record is read.
#[derive(Drop)]
pub struct Draft {
    pub header: Header,
    pub conditions: Vec<u16>,
    pub moves: Vec<Move>,
    pub requests: Vec<Request>,
    ghost marks_few: { header.marks ≤ most_marks },
}
