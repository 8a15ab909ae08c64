// What may come next in a draft: the order of the kinds, the room for each, and the rising sequences.
ghost use Rattle.std.specs.Prelude.{◌≡◌, map as mapped, length, IfOk, MatchResult, nat_lt};
ghost use Rattle.port.specs.Limits.{key};
ghost use Rattle.reader.specs.Reads.{Reads, Stays, itself};
ghost use Rattle.records.specs.Admission.{admission};
ghost use Rattle.records.specs.Drafts.{draft_model};
ghost use Rattle.records.specs.Kinds.{kind_number};
ghost use Rattle.reading.specs.Reading.{Step, Head, fault, empty, heading, follows, room, admitted, rises};

use crate::draft::Draft;
use crate::kinds::Kind;
use faults::{PortFault, RecordFault};
use port::Move;
use reader::Reader;
use std::alloc::Global;

// The most conditions, moves and requests of a port.
const CONDITIONS: usize = 256;

const MOVES: usize = 4096;

const REQUESTS: usize = 32;

impl Draft {
    // What the header tells.
    pub fn begin(reader: &mut Reader, heap: Global) -> Result<Draft, PortFault>
        ensures read { Reads heading (λ d. d.header) itself reader.old reader.new result }
        ensures stays { Stays reader.old reader.new result }
        ensures begun { IfOk result (λ d. draft_model d ≡ empty d.header) }
    {
        let header = reader.next_header()?;
        Ok(Draft {
            header,
            conditions: Vec::new(heap),
            moves: Vec::new(heap),
            requests: Vec::new(heap),
        })
    }

    // Whether a record of this kind may come next: the kinds come in their order.
    fn follows(&self, kind: Kind) -> bool
        ensures { result ≡ follows (draft_model self.now) (kind_number kind) }
    {
        match kind {
            Kind::Condition => self.moves.is_empty() && self.requests.is_empty(),
            Kind::Move => self.requests.is_empty(),
            Kind::Request => true,
        }
    }

    // Whether there may be one more of this kind.
    fn has_room(&self, kind: Kind) -> bool
        ensures { result ≡ room (draft_model self.now) (kind_number kind) }
    {
        match kind {
            Kind::Condition => self.conditions.len() < CONDITIONS,
            Kind::Move => self.moves.len() < MOVES,
            Kind::Request => self.requests.len() < REQUESTS,
        }
    }

    // A kind that may not come next is refused before one that there is no room for.
    fn check_next(&self, kind: Kind, place: usize) -> Result<(), PortFault>
        ensures { result ≡ admission (draft_model self.now) (kind_number kind) place }
    {
        if !self.follows(kind) {
            return Err(PortFault::Record(RecordFault::Kind(place)));
        }
        if !self.has_room(kind) {
            return Err(PortFault::Many(place));
        }
        Ok(())
    }

    // The kind of the byte at this place, if a record of that kind may come next and there is room for it.
    pub(crate) fn admit(&self, byte: u8, place: usize) -> Result<Kind, PortFault>
        ensures { MatchResult result (λ k. (byte ≡ kind_number k) × ((x : Step Head) → admitted (draft_model self.now) byte place x ≡ x)) (λ e. (x : Step Head) → admitted (draft_model self.now) byte place x ≡ fault e) }
    {
        let Ok(kind) = Kind::try_from(byte) else {
            return Err(PortFault::Record(RecordFault::Kind(place)));
        };
        self.check_next(kind, place)?;
        Ok(kind)
    }

    // Stays: two functions of one line each. What they share is the library's `is_none_or`, and each has an order of its own.

    // Whether these marks are above those of the last condition.
    pub(crate) fn condition_rises(&self, marks: u16) -> bool
        ensures { result ≡ rises self.now.conditions.items marks }
    {
        self.conditions.last().is_none_or(|last| *last < marks)
    }

    // Whether a move comes after the last one.
    pub(crate) fn move_rises(&self, next: Move) -> bool
        ensures { result ≡ rises (mapped key self.now.moves.items) (key next) }
    {
        self.moves.last().is_none_or(|last| is_before(*last, next))
    }

    // Whether the start condition exists.
    pub fn start_exists(&self) -> bool
        ensures { result ≡ nat_lt self.now.header.condition (length self.now.conditions.items) }
    {
        (self.header.condition as usize) < self.conditions.len()
    }
}

// Whether a move comes before another: by condition, then by operation, then by outcome.
fn is_before(a: Move, b: Move) -> bool
    ensures { result ≡ nat_lt (key a) (key b) }
{
    (a.condition, a.operation, a.outcome) < (b.condition, b.operation, b.outcome)
}
